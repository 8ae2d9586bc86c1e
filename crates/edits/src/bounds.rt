// Bounds of the flag forms: open, or a place of *done* or of the input.
ghost use Rattle.std.specs.Prelude.{◌≡◌, ℕ};
ghost use Rattle.edits.specs.Flags.{place_number, too_far, start_of, end_of};

use records::{DonePlace, InputPlace};

// A place of a list. Places of *done* and of the input are counted apart, but bounds of both are read alike.
pub(crate) trait Place: Copy {
    ghost number: { Self → ℕ };

    fn number(self) -> usize
        ensures { result ≡ number self };
}

impl Place for InputPlace {
    ghost number = { λ p. p.0 };

    fn number(self) -> usize {
        self.0
    }
}

impl Place for DonePlace {
    ghost number = { λ p. p.0 };

    fn number(self) -> usize {
        self.0
    }
}

#[tactic(auto, unfolding(crate::specs::Flags::start_of, crate::specs::Flags::place_number))]
pub(crate) fn start<P: Place>(bound: Option<P>) -> usize
    ensures { result ≡ start_of (place_number P.number bound) }
{
    bound.map_or(0, |p| p.number())
}

#[tactic(auto, unfolding(crate::specs::Flags::end_of, crate::specs::Flags::place_number))]
pub(crate) fn end<P: Place>(bound: Option<P>, len: usize) -> usize
    ensures { result ≡ end_of (place_number P.number bound) len }
{
    bound.map_or(len, |p| std::cmp::min(p.number(), len))
}

// Whether an end lies over 255 places behind a start, modulo 2^64. The start may be a place of *done*, the end one of the input.
#[tactic(auto, unfolding(crate::specs::Flags::too_far, crate::specs::Flags::place_number))]
pub(crate) fn too_far<S: Place, E: Place>(start: Option<S>, end: Option<E>) -> bool
    ensures { result ≡ too_far (place_number S.number start) (place_number E.number end) }
{
    start
        .zip(end)
        .is_some_and(|(s, e)| 255 < e.number().wrapping_sub(s.number()))
}
