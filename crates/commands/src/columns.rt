// How much of a line a text shows: all of it, or all but the glyph column, which only a glyph's line has.
ghost use Rattle.std.specs.Prelude.{◌≡◌, ◌==◌, List, ℕ, ◌≤◌, length, position};
ghost use Rattle.commands.specs.Totals.{is_glyph_kind};
ghost use Rattle.commands.specs.{Texts.without_glyph, inner.TextParts.Spaced, inner.TextParts.Cut};

// What is shown of a line, whatever line it is.
pub(crate) trait Column {
    ghost shown: { List ℕ → List ℕ };

    // Where in the line's own bytes what is shown of it starts.
    fn start(line: &mut [u8]) -> usize
        ensures { Cut shown line.old result line.new };
}

pub(crate) struct Kept;

impl Column for Kept {
    ghost shown = { λ l. l };

    fn start(_line: &mut [u8]) -> usize {
        0
    }
}

pub(crate) struct Removed;

impl Column for Removed {
    ghost use Rattle.commands.specs.Texts.{without_glyph};

    ghost shown = { without_glyph };

    fn start(line: &mut [u8]) -> usize {
        cut(line)
    }
}

// Whether a line is a glyph's, by its first byte.
#[tactic(auto, unfolding(crate::specs::Totals::is_glyph_kind))]
fn is_glyph_kind(kind: u8) -> bool
    ensures { result ≡ is_glyph_kind kind }
{
    matches!(kind, b'o' | b'p' | b'i')
}

fn first_space(line: &[u8]) -> Option<usize>
    ensures { result ≡ position (λ x. x == 32) line.now }
{
    line.iter().position(|b| *b == b' ')
}

// The next space from a place on, or the end.
#[tactic(auto, using(crate::proofs::ColumnLaws::spaced))]
fn next_space(line: &[u8], from: usize) -> usize
    requires { from ≤ length line.now }
    ensures { Spaced line.now from result }
{
    let rest = &line[from..];
    from + first_space(rest).unwrap_or(rest.len())
}

// Takes the glyph column out of a line: what is left starts at the place given back.
#[tactic(auto, using(crate::proofs::ColumnLaws::cuts))]
fn cut(line: &mut [u8]) -> usize
    ensures { Cut without_glyph line.old result line.new }
{
    if line.len() < 2 || !is_glyph_kind(line[0]) {
        return 0;
    }
    let start = next_space(line, 2) - 1;
    line[start] = line[0];
    start
}
