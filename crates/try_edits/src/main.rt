// Drives the calls of `edits`, and prints what each answers and leaves.

#![tactic(auto)]

ghost use Rattle.std.specs.Prelude.{◌≡◌, ◌∷◌, []};
ghost use Rattle.records.specs.declared.Refusal.TheVariants.{OutOfRange, BadOperand, OverCapacity};

mod calls;
mod runs;
mod scenarios;
mod scripts;
mod show;
mod whole_runs;

use driving::starts;
use edits::deleting::delete_glyph;
use edits::merges::merge_clusters;
use edits::replacing::replace_glyphs;
use edits::writing::output_glyph;
use records::{Answer, InputPlace, Refusal};
use std::fmt;

// Slices for so many glyphs.
const THREE: usize = 3 * records::words::WORDS;

const SIX: usize = 6 * records::words::WORDS;

const SEVEN: usize = 7 * records::words::WORDS;

// Too few numbers, which comes before the capacity; past the end; done; beyond the capacity; nothing left to delete.
fn answers() -> [Answer; 5]
    ensures { result ≡ Err BadOperand ∷ Err OutOfRange ∷ Ok None ∷ Err OverCapacity ∷ Err OutOfRange ∷ [] }
{
    let mut first = [0u32; THREE];
    let mut second = [0u32; THREE];
    let (start, end) = (InputPlace(0), InputPlace(3));
    let opened = lists::cursor::clear_output(starts::start(2, 2, 0), &first, &second);
    let few = replace_glyphs(opened.buffer, &mut first, &mut second, 1, 9, &[90, 91]);
    let past = merge_clusters(few.buffer, &mut first, &mut second, start, end);
    let full = replace_glyphs(past.buffer, &mut first, &mut second, 2, 3, &[90, 91, 92]);
    let over = output_glyph(full.buffer, &mut first, &mut second, 93);
    let none = delete_glyph(over.buffer, &mut first, &mut second);
    [
        few.answer,
        past.answer,
        full.answer,
        over.answer,
        none.answer,
    ]
}

// Answers that are proved before the program runs: each `expect` is a fact of the contracts.
fn expected() {
    let [few, past, full, over, none] = answers();
    check::expect(few == Err(Refusal::BadOperand));
    check::expect(past == Err(Refusal::OutOfRange));
    check::expect(full == Ok(None));
    check::expect(over == Err(Refusal::OverCapacity));
    check::expect(none == Err(Refusal::OutOfRange));
}

fn play() -> fmt::Result {
    scenarios::all()?;
    whole_runs::all()
}

// A line that cannot be written ends the run.
fn main() {
    expected();
    let _ = play();
}
