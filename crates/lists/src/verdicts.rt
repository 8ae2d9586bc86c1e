// What a call comes to, before a word is written, and the reply that is made of it.
ghost use Rattle.std.specs.Prelude.{◌≡◌, false, None, Ok, ◌+◌, ◌<◌, ◌^◌};
ghost use Rattle.lists.specs.inner.States.{at_places, reply};
ghost use Rattle.lists.specs.inner.Verdicts.{Leaves, failed_buffer, Sized, lies_elsewhere, acts_of, apart_of, settled_buffer, settled, settled_as, synced};

use super::{Buffer, Decision, Reply, Verdict, state};
use records::{Answer, DonePlace, InputPlace, Phase};

// The verdict that leaves this state.
#[inline(always)]
pub fn leaves(b: Buffer, acts: bool, value: Option<u32>) -> Decision
    ensures { Leaves b acts value result }
{
    Ok(Verdict {
        idx: b.idx.0,
        len: b.len.0,
        out_len: b.out_len.0,
        limits: b.limits,
        apart: false,
        acts,
        value,
    })
}

// The size is given up, and nothing else happens.
#[inline(always)]
#[tactic(auto, unfolding(crate::specs::inner::Verdicts::failed_buffer))]
pub fn fails(b: Buffer, value: Option<u32>) -> Decision
    ensures { Leaves (failed_buffer b) false value result }
{
    leaves(state::with_limits(b, b.limits.fail()), false, value)
}

// The cursor goes on by n, and nothing is written.
#[inline(always)]
#[tactic(auto, using(crate::proofs::Decisions::settling))]
pub(crate) fn passes(b: Buffer, n: usize) -> Decision
    requires { b.idx.0 + n < 2 ^ 64 }
    ensures { Leaves (at_places (b.idx.0 + n) b.len.0 b.out_len.0 b) false None result }
{
    let after = state::at_places(b, b.idx.0 + n, b.len.0, b.out_len.0);
    leaves(after, false, None)
}

// With output: num_in glyphs are taken and num_out written, if their size is there. The sums are of an operand: no invariant of the state
// can bound them.
#[inline(always)]
#[tactic(auto, using(crate::proofs::Decisions::settling))]
pub fn writes(b: Buffer, capacity: usize, num_in: usize, num_out: usize, acts: bool) -> Decision
    requires { (b.idx.0 + num_in < 2 ^ 64) × (b.out_len.0 + num_out < 2 ^ 64) }
    ensures { Sized capacity b num_in num_out acts result }
{
    let out_len = b.out_len.0 + num_out;
    let fits = state::room_for(b.limits, capacity, out_len)?;
    if fits {
        let grown = state::with_limits(b, b.limits.grow(out_len));
        let after = state::at_places(grown, b.idx.0 + num_in, b.len.0, out_len);
        return leaves(after, acts, None);
    }
    fails(b, None)
}

// Whether the glyphs at the cursor stand elsewhere than behind the output.
#[tactic(auto, unfolding(crate::specs::inner::Verdicts::lies_elsewhere))]
pub(crate) fn lies_elsewhere(b: Buffer) -> bool
    ensures { result ≡ lies_elsewhere b }
{
    b.have_separate_output || b.idx.0 != b.out_len.0
}

// Whether there is an act for a call. Those of 00 and 03 write no glyph.
pub fn acts(decision: Decision) -> bool
    ensures { result ≡ acts_of decision }
{
    decision.is_ok_and(|v| v.acts)
}

// Whether the output moves to the other slice.
pub fn moves_apart(decision: Decision) -> bool
    ensures { result ≡ apart_of decision }
{
    decision.is_ok_and(|v| v.apart)
}

// The state that a verdict leaves, from the one before the call.
fn after(b: Buffer, v: Verdict) -> Buffer
    ensures { result ≡ settled_buffer b v }
{
    Buffer {
        idx: InputPlace(v.idx),
        len: InputPlace(v.len),
        out_len: DonePlace(v.out_len),
        limits: v.limits,
        have_separate_output: b.have_separate_output | v.apart,
        ..b
    }
}

// The reply of a verdict's places and limits with any answer, a refusal as well. A refusal of ours changes nothing: `settled`.
#[inline(always)]
pub fn settled_with(b: Buffer, v: Verdict, answer: Answer) -> Reply
    ensures { result ≡ reply (settled_buffer b v) answer }
{
    state::reply(after(b, v), answer)
}

// The reply of a verdict.
#[tactic(auto, unfolding(crate::specs::inner::Verdicts::settled))]
#[inline(always)]
pub(crate) fn replied(b: Buffer, v: Verdict) -> Reply
    ensures { result ≡ settled b (Ok v) }
{
    settled_with(b, v, Ok(v.value))
}

// The reply, from the state before the call and what it came to.
#[inline(always)]
#[tactic(auto, unfolding(crate::specs::inner::Verdicts::settled))]
pub fn settled(b: Buffer, decision: Decision) -> Reply
    ensures { result ≡ settled b decision }
{
    match decision {
        Ok(v) => replied(b, v),
        Err(why) => state::reply(b, Err(why)),
    }
}

// The reply of a call that leaves another state than its verdict's places: `after`, where it acts.
#[inline(always)]
#[tactic(auto, using(crate::proofs::Decisions::settling))]
pub(crate) fn settled_as(b: Buffer, after: Buffer, decision: Decision) -> Reply
    ensures { result ≡ settled_as b after decision }
{
    if acts(decision) {
        return state::reply(after, Ok(None));
    }
    settled(b, decision)
}

// The reply of `sync`: the output as the run, with the answer 1, where its verdict has no value; else the value is 0, and the state spoiled.
#[inline(always)]
#[tactic(auto, unfolding(crate::specs::inner::Verdicts::synced))]
pub(crate) fn synced(b: Buffer, decision: Decision) -> Reply
    ensures { result ≡ synced b decision }
{
    match decision {
        Ok(v) => match v.value {
            None => state::reply(state::swapped(after(b, v)), Ok(Some(1))),
            Some(x) => state::reply(state::restarted(b, Phase::Spoiled), Ok(Some(x))),
        },
        Err(why) => state::reply(b, Err(why)),
    }
}

// What a call by value leaves, in the state that was lent to it.
pub fn stored(r: Reply, b: &mut Buffer) -> Answer
    ensures { record { buffer = b.new; answer = result } ≡ r }
{
    *b = r.buffer;
    r.answer
}
