// Glyphs of the input that others take the place of, by places.
ghost use Rattle.std.specs.Prelude.{◌≡◌, ◌+◌, ◌≤◌, false, length};
ghost use Rattle.records.specs.View.{glyphs, seen};
ghost use Rattle.records.specs.Ranges.{copies};
ghost use Rattle.lists.specs.inner.Copied.{copied};
ghost use Rattle.lists.specs.inner.Verdicts.{Sided};
ghost use Rattle.edits.specs.inner.MergeActs.{MergeRoom, Merges};
ghost use Rattle.edits.specs.inner.Puts.{Puttable, Wrote, Replaceable, Replaces};

use super::numbers::Given;
use super::{Way, merge_acts, puts};
use lists::{Lists, swapping};
use records::GlyphInfo;

// A glyph for each of the first n numbers, from place `at` on, with the other words of g.
#[tactic(auto, using(crate::proofs::Acting::putting))]
fn put_copies<G: Given>(ws: &mut [u32], at: usize, g: GlyphInfo, numbers: G, n: usize)
    requires { (at + n ≤ length (glyphs ws.old)) × (n ≤ length (G.numbers numbers)) }
    ensures { glyphs ws.new ≡ copied (glyphs ws.old) at (copies (seen g).info (G.numbers numbers)) 0 n }
{
    for i in 0..n {
        records::glyphs::put(ws, at + i, puts::numbered(g, numbers.number_at(i)));
    }
}

// The same behind the output.
fn write_copies<G: Given>(
    run: &mut [u32],
    other: &mut [u32],
    at: Lists,
    apart: bool,
    g: GlyphInfo,
    numbers: G,
    n: usize,
)
    requires { (Puttable at.out_len n run.old other.old) × (n ≤ length (G.numbers numbers)) }
    ensures { Wrote at apart (copies (seen g).info (G.numbers numbers)) n run.old other.old run.new other.new }
{
    let lies_apart = puts::bring(run, other, at, apart);
    swapping::act_on(
        run,
        other,
        lies_apart,
        |out, _rest| put_copies(out, at.out_len, g, numbers, n),
    );
}

// The input from the cursor up to place `end` merges: under two glyphs nothing happens.
#[tactic(auto, using(lists::proofs::Decisions::settling, crate::proofs::MergeDecisions::merge_acting))]
fn merge_inputs(run: &mut [u32], other: &mut [u32], at: Lists, way: Way, end: usize)
    requires { MergeRoom at.len at.out_len at.idx end run.old other.old }
    ensures { Sided false (Merges at.separate way.merges way.level way.wants at.idx at.len at.out_len at.idx end) run.old other.old run.new other.new }
{
    // The test of `merge_by`, made here too: without, 0E of one glyph by two costs 232 instructions a glyph, and 211 so.
    if end - at.idx < 2 {
        return;
    }
    merge_acts::merge_by(run, other, at, way, at.idx, end);
}

// The inputs merge, then copies of the first go behind the output in their place. The two counts are operands of the call, and bound
// neither slice: they are no length of `numbers`.
#[tactic(auto, using(crate::proofs::PutLaws::put_laws, crate::proofs::Chaining::staying, std::proofs::Common::rules))]
pub(crate) fn replace<G: Given>(
    run: &mut [u32],
    other: &mut [u32],
    at: Lists,
    apart: bool,
    way: Way,
    num_in: usize,
    num_out: usize,
    numbers: G,
)
    requires { Replaceable at num_in num_out (length (G.numbers numbers)) run.old other.old }
    ensures { Replaces at apart way.merges way.level way.wants num_in num_out (G.numbers numbers) run.old other.old run.new other.new }
{
    merge_inputs(run, other, at, way, at.idx + num_in);
    let g = records::glyphs::get(run, at.idx);
    write_copies(run, other, at, apart, g, numbers, num_out);
}
