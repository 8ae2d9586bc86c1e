// The whole run: what calls 01, 02 and 1A to 23 ask for before they begin.
ghost use Rattle.std.specs.Prelude.{◌≡◌, ◌||◌, nat_lt};
ghost use Rattle.lists.specs.Account.{output_phase, spoiled_phase};
ghost use Rattle.edits.specs.inner.Wholes.{TakesWhole};
ghost use Rattle.edits.specs.inner.Charges.{TakesKeyed};

use lists::{Buffer, Decision, state, verdicts};
use records::Refusal;

// Whether there is output, or no list, or a cursor past the start. Asked after `sound` by six verdicts: one function of both tests that they call by
// `?` was tried, and the check leaves open the branch that goes out and, in five of them, those behind it.
pub(crate) fn not_whole(b: Buffer) -> bool
    ensures { result ≡ (output_phase b.phase || (spoiled_phase b.phase || nat_lt 0 b.idx.0)) }
{
    state::have_output(b.phase) || state::is_spoiled(b.phase) || 0 < b.idx.0
}

// 1B, 1D, 1F and 23: nothing else refuses them.
#[inline(always)]
#[tactic(auto, using(crate::proofs::WholeCalls::whole_calls))]
pub(crate) fn whole_verdict(b: Buffer, first: &[u32], second: &[u32]) -> Decision
    ensures { TakesWhole b first.now second.now result }
{
    state::sound(b, first, second)?;
    if not_whole(b) {
        return Err(Refusal::WrongPhase);
    }
    verdicts::leaves(b, true, None)
}

// 1E, 21 and 22: nor does anything but the slot of their key.
#[inline(always)]
#[tactic(auto, using(crate::proofs::Charging::charging))]
pub(crate) fn keyed_verdict(b: Buffer, first: &[u32], second: &[u32], slot: u32) -> Decision
    ensures { TakesKeyed slot b first.now second.now result }
{
    let verdict = whole_verdict(b, first, second)?;
    if 1 < slot {
        return Err(Refusal::BadOperand);
    }
    Ok(verdict)
}
