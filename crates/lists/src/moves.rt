// Moves of glyphs between the input and the output, from a place to a place and how many, as copies, in whichever slice the output lies.
// Which it is, the state says as the call runs: a closure would be chosen by the same `if`.
ghost use Rattle.std.specs.Prelude.{◌≡◌, cond, ◌+◌, ◌≤◌, length};
ghost use Rattle.records.specs.View.{glyphs};
ghost use Rattle.lists.specs.inner.Copied.{copied};
ghost use Rattle.lists.specs.inner.Moving.{Carried, Carriable, Passable, Moved, Movable};

use super::{Lists, copies};

// n glyphs of the run, from place `from` on, go to place `to` of the output. Where they lie there already, nothing is written.
#[tactic(auto, using(crate::proofs::Carrying::carrying))]
pub(crate) fn carry(
    run: &mut [u32],
    other: &mut [u32],
    separate: bool,
    from: usize,
    to: usize,
    n: usize,
)
    requires { Passable separate from to n run.old other.old }
    ensures { Carried separate from to n run.old other.old run.new other.new }
{
    if separate {
        copies::copy_across(run, other, from, to, n);
        return;
    }
    copies::copy_within(run, from, to, n);
}

// n glyphs of the output, from place `from` on, go to place `to` of the run.
#[tactic(auto, using(crate::proofs::Carrying::carrying))]
fn carry_back(run: &mut [u32], other: &mut [u32], separate: bool, from: usize, to: usize, n: usize)
    requires { Carriable from to n run.old other.old }
    ensures { (glyphs run.new ≡ copied (glyphs run.old) to (cond separate (glyphs other.old) (glyphs run.old)) from n) × (other.new ≡ other.old) }
{
    if separate {
        copies::copy_across(other, run, from, to, n);
        return;
    }
    copies::copy_within(run, from, to, n);
}

// What the cursor's move carries, from the places before it and the lengths after it: forward, or up and then back.
pub(crate) fn move_run(
    run: &mut [u32],
    other: &mut [u32],
    lists: Lists,
    len_after: usize,
    out_after: usize,
)
    requires { Movable lists.separate lists.idx lists.len lists.out_len len_after out_after run.old other.old }
    ensures { Moved lists.separate lists.idx lists.len lists.out_len len_after out_after run.old other.old run.new other.new }
{
    if lists.out_len < out_after {
        let n = out_after - lists.out_len;
        carry(run, other, lists.separate, lists.idx, lists.out_len, n);
        return;
    }
    let at = lists.idx + (len_after - lists.len);
    let n = lists.out_len - out_after;
    copies::copy_within(run, lists.idx, at, lists.len - lists.idx);
    carry_back(run, other, lists.separate, out_after, at - n, n);
}
