// One glyph that goes behind the output, by places. Where the output would overtake the cursor it moves to the other slice first: `apart`.
// The branches are by what the state says as the call runs: closures would be chosen by the same `if`.
ghost use Rattle.std.specs.Prelude.{◌≡◌, ◌+◌, ◌≤◌, [], ◌∷◌, length};
ghost use Rattle.records.specs.View.{glyphs, seen};
ghost use Rattle.lists.specs.inner.Copied.{copied};
ghost use Rattle.edits.specs.inner.Puts.{Puttable, Brought, Wrote, Modelled, Outputable, Outputs};

use super::writing;
use lists::{Lists, swapping};
use records::GlyphInfo;

// The same glyph under another number.
pub(crate) fn numbered(g: GlyphInfo, number: u32) -> GlyphInfo
    ensures { seen result ≡ record { glyph = number; info = (seen g).info } }
{
    GlyphInfo { glyph: number, ..g }
}

// The output moves to the other slice where it is to lie there. Whether it does, moved or not.
#[tactic(auto, using(crate::proofs::PutLaws::put_laws))]
pub(crate) fn bring(run: &[u32], other: &mut [u32], at: Lists, apart: bool) -> bool
    requires { (at.out_len ≤ length (glyphs run.now)) × (at.out_len ≤ length (glyphs other.old)) }
    ensures { Brought at apart run.now other.old other.new result }
{
    if at.separate {
        return true;
    }
    if apart {
        lists::copies::copy_across(run, other, 0, 0, at.out_len);
    }
    apart
}

// g goes to place i. What is promised is a copy of one glyph from a list of one, as `act_on` asks it of any number.
#[tactic(auto, using(crate::proofs::PutLaws::put_copied))]
fn put_at(ws: &mut [u32], i: usize, g: GlyphInfo)
    requires { i + 1 ≤ length (glyphs ws.old) }
    ensures { glyphs ws.new ≡ copied (glyphs ws.old) i (seen g ∷ []) 0 1 }
{
    records::glyphs::put(ws, i, g);
}

// g goes behind the output. Its two steps are those of `write_copies`: a function of both would be handed the put as a closure, and its contract.
pub(crate) fn put_one(run: &mut [u32], other: &mut [u32], at: Lists, apart: bool, g: GlyphInfo)
    requires { Puttable at.out_len 1 run.old other.old }
    ensures { Wrote at apart (seen g ∷ []) 1 run.old other.old run.new other.new }
{
    let lies_apart = bring(run, other, at, apart);
    swapping::act_on(
        run,
        other,
        lies_apart,
        |out, _rest| put_at(out, at.out_len, g),
    );
}

// The glyph at the cursor, or the last of the output where there is none.
#[tactic(auto, using(crate::proofs::PutLaws::put_laws))]
fn model(run: &[u32], other: &[u32], at: Lists) -> GlyphInfo
    requires { Outputable at run.now other.now }
    ensures { Modelled at run.now other.now (seen result) }
{
    if at.idx < at.len {
        return records::glyphs::get(run, at.idx);
    }
    writing::last_done(run, other, at.separate, at.out_len)
}

// A copy of it goes behind the output, under another number or, with none, its own.
pub(crate) fn output(
    run: &mut [u32],
    other: &mut [u32],
    at: Lists,
    apart: bool,
    number: Option<u32>,
)
    requires { Outputable at run.old other.old }
    ensures { Outputs at apart number run.old other.old run.new other.new }
{
    let g = model(run, other, at);
    put_one(
        run,
        other,
        at,
        apart,
        numbered(g, number.unwrap_or(g.glyph)),
    );
}
