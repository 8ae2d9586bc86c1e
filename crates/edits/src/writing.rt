// Writing: calls 0A to 0C. Each decides, acts and settles. The numbers of calls are document 01's.
ghost use Rattle.lists.specs.inner.Verdicts.{amended, apart_of};
ghost use Rattle.std.specs.Prelude.{◌≡◌, ◌+◌, ◌-◌, ◌^◌, ◌<◌, ◌≤◌, true, None, Some, length, if◌then◌else◌, slice_index_or};
ghost use Rattle.records.specs.{View.glyphs, View.seen, inner.Stores.zero_glyph};
ghost use Rattle.lists.specs.Contract.{Meets};
ghost use Rattle.lists.specs.inner.Verdicts.{settled};
ghost use Rattle.edits.specs.Writing.{copy_glyph, output_glyph, output_info};
ghost use Rattle.edits.specs.inner.Puts.{overtakes, lying, Writes, InfoDecided, OutputDecided, size_alone};

use super::puts;
use lists::{Buffer, Decision, Reply, Verdict, state, swapping, verdicts};
use records::{GlyphInfo, Refusal};

// Whether num_out glyphs behind the output, in place of num_in of the input, would overtake the cursor.
#[tactic(auto, using(crate::proofs::WriteCalls::write_calls))]
fn overtakes(b: Buffer, num_in: usize, num_out: usize) -> bool
    requires { (b.idx.0 + num_in < 2 ^ 64) × (b.out_len.0 + num_out < 2 ^ 64) }
    ensures { result ≡ overtakes b num_in num_out }
{
    !b.have_separate_output && b.idx.0 + num_in < b.out_len.0 + num_out
}

// With output: num_in glyphs are taken and num_out written, if their size is there.
#[tactic(auto, using(crate::proofs::WriteCalls::write_calls))]
#[inline(always)]
pub(crate) fn write_verdict(
    b: Buffer,
    capacity: usize,
    num_in: usize,
    num_out: usize,
    acts: bool,
) -> Decision
    requires { (b.idx.0 + num_in < 2 ^ 64) × (b.out_len.0 + num_out < 2 ^ 64) }
    ensures { Writes capacity b num_in num_out acts result }
{
    let v = verdicts::writes(b, capacity, num_in, num_out, acts)?;
    if v.acts {
        let apart = overtakes(b, num_in, num_out);
        return Ok(Verdict { apart, ..v });
    }
    Ok(v)
}

#[inline(always)]
#[tactic(auto, using(crate::proofs::WriteCalls::write_calls))]
fn copy_verdict(b: Buffer, first: &[u32], second: &[u32]) -> Decision
    ensures { OutputDecided (λ capacity a. copy_glyph capacity a) None (apart_of result) b first.now second.now result }
{
    state::sound(b, first, second)?;
    if state::have_output(b.phase) {
        if b.len.0 <= b.idx.0 {
            return Err(Refusal::OutOfRange);
        }
        return write_verdict(b, records::glyphs::capacity(first), 0, 1, true);
    }
    Err(Refusal::WrongPhase)
}

// 0A
#[inline(always)]
pub fn copy_glyph(b: Buffer, first: &mut [u32], second: &mut [u32]) -> Reply
    ensures { Meets (λ capacity a. copy_glyph capacity a) b first.old second.old result first.new second.new }
{
    let decision = copy_verdict(b, first, second);
    let at = state::lists_of(b);
    let apart = verdicts::moves_apart(decision);
    swapping::carry_out(
        b,
        decision,
        first,
        second,
        |run, other| puts::output(run, other, at, apart, None),
    )
}

#[inline(always)]
#[tactic(auto, using(crate::proofs::WriteCalls::write_calls))]
fn info_verdict(b: Buffer, first: &[u32], second: &[u32], g: GlyphInfo) -> Decision
    ensures { InfoDecided g b first.now second.now result }
{
    state::sound(b, first, second)?;
    if state::have_output(b.phase) {
        return write_verdict(b, records::glyphs::capacity(first), 0, 1, true);
    }
    Err(Refusal::WrongPhase)
}

// 0C
#[inline(always)]
pub fn output_info(b: Buffer, first: &mut [u32], second: &mut [u32], g: GlyphInfo) -> Reply
    ensures { Meets (λ capacity a. output_info capacity (seen g).glyph (seen g).info a) b first.old second.old result first.new second.new }
{
    let decision = info_verdict(b, first, second, g);
    let at = state::lists_of(b);
    let h = records::glyphs::with_origin(g, 0);
    let apart = verdicts::moves_apart(decision);
    swapping::carry_out(
        b,
        decision,
        first,
        second,
        |run, other| puts::put_one(run, other, at, apart, h),
    )
}

// The last glyph of the output, in whichever slice it lies.
#[tactic(auto, using(crate::proofs::Writings::last_glyph))]
pub(crate) fn last_done(run: &[u32], other: &[u32], separate: bool, out_len: usize) -> GlyphInfo
    requires { (1 ≤ out_len) × (out_len ≤ length (glyphs run.now)) × (out_len ≤ length (glyphs other.now)) }
    ensures { seen result ≡ slice_index_or (if separate then glyphs other.now else glyphs run.now) (out_len - 1) zero_glyph }
{
    let output = swapping::one_of(run, other, separate);
    records::glyphs::get(output, out_len - 1)
}

// What is left of a verdict where there is no glyph to be copied: the limits, with the size that was allocated, and an output of no glyph.
#[inline(always)]
fn size_alone(decision: Decision) -> Decision
    ensures { result ≡ amended size_alone decision }
{
    let v = decision?;
    Ok(Verdict { out_len: 0, ..v })
}

#[inline(always)]
#[tactic(auto, using(crate::proofs::WriteCalls::write_calls))]
fn output_verdict(b: Buffer, first: &[u32], second: &[u32], number: u32) -> Decision
    ensures { OutputDecided (λ capacity a. output_glyph capacity number a) (Some number) (apart_of result) b first.now second.now result }
{
    state::sound(b, first, second)?;
    if state::have_output(b.phase) {
        // Whether there is a glyph to copy.
        let some = b.idx.0 < b.len.0 + b.out_len.0;
        let v = write_verdict(b, records::glyphs::capacity(first), 0, 1, some);
        if some {
            return v;
        }
        return size_alone(v);
    }
    Err(Refusal::WrongPhase)
}

// 0B
#[inline(always)]
pub fn output_glyph(b: Buffer, first: &mut [u32], second: &mut [u32], number: u32) -> Reply
    ensures { Meets (λ capacity a. output_glyph capacity number a) b first.old second.old result first.new second.new }
{
    let decision = output_verdict(b, first, second, number);
    let at = state::lists_of(b);
    let apart = verdicts::moves_apart(decision);
    swapping::carry_out(
        b,
        decision,
        first,
        second,
        |run, other| puts::output(run, other, at, apart, Some(number)),
    )
}
