// What `move_to` comes to: 10.
#![tactic(auto, using(crate::proofs::ForwardCalls::forward_calls, crate::proofs::BackCalls::back_calls, crate::proofs::MoveCalls::move_calls))]

ghost use Rattle.std.specs.Prelude.{◌≡◌, ◌+◌, ◌-◌, ◌≤◌, ◌<◌, ◌^◌};
ghost use Rattle.lists.specs.inner.Moving.{Opened, Forwarding, BackOver, Forwards, Backs, Shifts, MovesForward, MovesBack, MovesTo, len_of, out_len_of};

use super::{Buffer, Decision, state, verdicts};
use records::Refusal;

// Forward by n, once the size is there and its cost is paid.
#[inline(always)]
fn paid_forward(b: Buffer, size: usize, n: usize) -> Decision
    requires { (size ≡ b.out_len.0 + n) × (b.idx.0 + n < 2 ^ 64) }
    ensures { Forwards n b result }
{
    let limits = b.limits.grow(size).pay(n);
    let paid = state::with_limits(b, limits);
    if records::counters::is_negative(limits.max_ops) {
        return verdicts::leaves(paid, false, Some(0));
    }
    let after = state::at_places(paid, b.idx.0 + n, b.len.0, size);
    verdicts::leaves(after, true, Some(1))
}

// Forward by n, with output.
#[inline(always)]
fn forward_verdict(b: Buffer, first: &[u32], second: &[u32], n: usize) -> Decision
    requires { Forwarding b n first.now second.now }
    ensures { MovesForward n b first.now second.now result }
{
    let size = b.out_len.0 + n;
    let fits = state::room_for(b.limits, records::glyphs::capacity(first), size)?;
    if fits {
        return paid_forward(b, size, n);
    }
    verdicts::fails(b, Some(0))
}

// Back by n, which the cursor has room for, once its cost is paid. `shifts`: the input has gone up for it.
#[inline(always)]
fn paid_back(b: Buffer, n: usize, shifts: bool) -> Decision
    requires { (n ≤ b.idx.0) × (n ≤ b.out_len.0) }
    ensures { Backs n shifts b result }
{
    let limits = b.limits.pay(n);
    let paid = state::with_limits(b, limits);
    if records::counters::is_negative(limits.max_ops) {
        return verdicts::leaves(paid, shifts, Some(0));
    }
    let after = state::at_places(paid, b.idx.0 - n, b.len.0, b.out_len.0 - n);
    verdicts::leaves(after, true, Some(1))
}

// The input goes up, once the size is there and its cost is paid, so that there is room to go back by n.
#[inline(always)]
fn paid_shift(b: Buffer, size: usize, n: usize) -> Decision
    requires { (size ≡ (b.len.0 - b.idx.0) + n) × (b.idx.0 ≤ b.len.0) × (n ≤ b.out_len.0) }
    ensures { Shifts n b result }
{
    let left = b.len.0 - b.idx.0;
    let limits = b.limits.grow(size).pay(left);
    let paid = state::with_limits(b, limits);
    if records::counters::is_negative(limits.max_ops) {
        return verdicts::leaves(paid, false, Some(0));
    }
    let up = state::at_places(paid, n, size, b.out_len.0);
    paid_back(up, n, true)
}

// Back by n over the start of the input: first it goes up.
#[inline(always)]
fn back_over_verdict(b: Buffer, first: &[u32], second: &[u32], n: usize) -> Decision
    requires { BackOver b n first.now second.now }
    ensures { MovesBack n b first.now second.now result }
{
    let size = (b.len.0 - b.idx.0) + n;
    let fits = state::room_for(b.limits, records::glyphs::capacity(first), size)?;
    if fits {
        return paid_shift(b, size, n);
    }
    verdicts::fails(b, Some(0))
}

// With output the place counts the output and the rest of the input together. Its three cases by `cmp` and a match are 17 instructions a move
// more.
#[inline(always)]
fn move_output_verdict(b: Buffer, first: &[u32], second: &[u32], i: usize) -> Decision
    requires { Opened b first.now second.now }
    ensures { MovesTo i b first.now second.now result }
{
    let out_len = b.out_len.0;
    if out_len + (b.len.0 - b.idx.0) < i {
        return Err(Refusal::OutOfRange);
    }
    if b.limits.successful {
        if out_len < i {
            return forward_verdict(b, first, second, i - out_len);
        }
        if i < out_len {
            let n = out_len - i;
            if b.idx.0 < n {
                return back_over_verdict(b, first, second, n);
            }
            return paid_back(b, n, false);
        }
        return verdicts::leaves(b, false, Some(1));
    }
    verdicts::leaves(b, false, Some(0))
}

#[inline(always)]
pub(crate) fn move_verdict(b: Buffer, first: &[u32], second: &[u32], i: usize) -> Decision
    ensures { MovesTo i b first.now second.now result }
{
    state::sound(b, first, second)?;
    state::unspoiled(b)?;
    if state::have_output(b.phase) {
        return move_output_verdict(b, first, second, i);
    }
    let len = b.len.0;
    if len < i {
        return Err(Refusal::OutOfRange);
    }
    verdicts::leaves(state::at_places(b, i, len, b.out_len.0), false, Some(1))
}

// The ends of the input and of the output after the move. A call that is refused does not act, and goes by none: it has 0.
pub(crate) fn lengths_after(decision: Decision) -> (usize, usize)
    ensures { (result.0 ≡ len_of decision) × (result.1 ≡ out_len_of decision) }
{
    decision.map_or((0, 0), |v| (v.len, v.out_len))
}
