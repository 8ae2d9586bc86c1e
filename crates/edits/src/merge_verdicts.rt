// What merges come to: from the state, the lengths of the slices and the operands. No glyph is read.
#![tactic(auto, using(crate::proofs::MergeDecisions::merge_calls, crate::proofs::MergeDecisions::merge_acting, crate::proofs::OutCalls::out_merge_calls))]

ghost use Rattle.std.specs.Prelude.{true};
ghost use Rattle.lists.specs.inner.States.{with_limits_of};
ghost use Rattle.lists.specs.inner.Verdicts.{Leaves};
ghost use Rattle.edits.specs.inner.MergeActs.{merge_limits, MergesInput, MergesDone};

use super::{merge_acts, merges};
use lists::{Buffer, Decision, state, verdicts};
use records::{DonePlace, InputPlace, Refusal};

// The verdict on a merge of n glyphs that goes ahead.
#[inline(always)]
fn goes_ahead(b: Buffer, merges: bool, n: usize) -> Decision
    ensures { Leaves (with_limits_of (merge_limits merges n b.limits) b) true None result }
{
    let limits = merge_acts::merge_limits(b.limits, merges, n);
    verdicts::leaves(state::with_limits(b, limits), true, None)
}

// 11 and 13, which merge at some levels, and flag at the others.
#[inline(always)]
#[tactic(auto, using(crate::proofs::MergeDecisions::merge_calls))]
pub(crate) fn merge_verdict(
    b: Buffer,
    first: &[u32],
    second: &[u32],
    merges: bool,
    start: InputPlace,
    end: InputPlace,
) -> Decision
    ensures { MergesInput merges start end b first.now second.now result }
{
    state::sound(b, first, second)?;
    if state::is_spoiled(b.phase) {
        return Err(Refusal::WrongPhase);
    }
    if merges::outside_input(b, start.0, end.0) {
        return Err(Refusal::OutOfRange);
    }
    goes_ahead(b, merges, end.0 - start.0)
}

// 12 and 14, which merge at some levels, and at the others do nothing.
#[inline(always)]
#[tactic(auto, using(crate::proofs::OutCalls::out_merge_calls))]
pub(crate) fn merge_out_verdict(
    b: Buffer,
    first: &[u32],
    second: &[u32],
    merges: bool,
    start: DonePlace,
    end: DonePlace,
) -> Decision
    ensures { MergesDone merges start end b first.now second.now result }
{
    state::sound(b, first, second)?;
    if state::have_output(b.phase) {
        if end.0 < start.0 || b.out_len.0 < end.0 {
            return Err(Refusal::OutOfRange);
        }
        return goes_ahead(b, merges, end.0 - start.0);
    }
    Err(Refusal::WrongPhase)
}
