// Replacing: calls 0D and 0E. Each decides, acts and settles. The numbers of calls are document 01's.
ghost use Rattle.lists.specs.inner.Verdicts.{amended};
ghost use Rattle.std.specs.Prelude.{◌≡◌, false, Some, [], ◌∷◌};
ghost use Rattle.records.specs.Bytes.{words_of};
ghost use Rattle.lists.specs.Contract.{Meets};
ghost use Rattle.edits.specs.inner.MergeActs.{merge_limits};
ghost use Rattle.edits.specs.Writing.{replace_glyphs};
ghost use Rattle.edits.specs.inner.Puts.{costing, OutputDecided, ReplaceDecided};

use super::merges::clusters_merge;
use super::numbers::Given;
use super::{merge_acts, puts, replace_acts, ways, writing};
use lists::{Buffer, Decision, Reply, Verdict, state, swapping, verdicts};
use records::Refusal;

// The merge of n glyphs is paid for where glyphs are written.
#[tactic(auto, using(crate::proofs::ReplaceCalls::replace_calls))]
#[inline(always)]
fn paying(decision: Decision, merges: bool, n: usize) -> Decision
    ensures { result ≡ amended (costing (merge_limits merges n)) decision }
{
    let v = decision?;
    if v.acts {
        let limits = merge_acts::merge_limits(v.limits, merges, n);
        return Ok(Verdict { limits, ..v });
    }
    Ok(v)
}

// The size first, then the merge of the inputs. Of the numbers only their count is read.
#[inline(always)]
#[tactic(auto, using(crate::proofs::ReplaceCalls::replace_calls))]
fn replace_verdict<G: Given>(
    b: Buffer,
    first: &[u32],
    second: &[u32],
    num_in: usize,
    num_out: usize,
    numbers: G,
) -> Decision
    ensures { ReplaceDecided num_in num_out (G.numbers numbers) b first.now second.now result }
{
    state::sound(b, first, second)?;
    if state::have_output(b.phase) {
        let left = b.len.0 - b.idx.0;
        if left < 1 || left < num_in {
            return Err(Refusal::OutOfRange);
        }
        if numbers.count() < num_out {
            return Err(Refusal::BadOperand);
        }
        let v = writing::write_verdict(b, records::glyphs::capacity(first), num_in, num_out, true);
        return paying(v, clusters_merge(b.level), num_in);
    }
    Err(Refusal::WrongPhase)
}

// 0E, of numbers that are given in either way.
#[inline(always)]
fn replace_given<G: Given>(
    b: Buffer,
    first: &mut [u32],
    second: &mut [u32],
    num_in: usize,
    num_out: usize,
    numbers: G,
) -> Reply
    ensures { Meets (λ capacity a. replace_glyphs capacity num_in num_out (G.numbers numbers) a) b first.old second.old result first.new second.new }
{
    let decision = replace_verdict(b, first, second, num_in, num_out, numbers);
    let way = ways::way_of(b, clusters_merge(b.level));
    let at = state::lists_of(b);
    let apart = verdicts::moves_apart(decision);
    swapping::carry_out(b, decision, first, second, |run, other| {
        replace_acts::replace(run, other, at, apart, way, num_in, num_out, numbers)
    })
}

// 0E
#[inline(always)]
pub fn replace_glyphs(
    b: Buffer,
    first: &mut [u32],
    second: &mut [u32],
    num_in: usize,
    num_out: usize,
    numbers: &[u32],
) -> Reply
    ensures { Meets (λ capacity a. replace_glyphs capacity num_in num_out numbers.now a) b first.old second.old result first.new second.new }
{
    replace_given(b, first, second, num_in, num_out, numbers)
}

// 0E, of numbers in a string of bytes, four bytes a number. Bytes after the last whole one are left alone.
#[inline(always)]
pub fn replace_glyphs_from_bytes(
    b: Buffer,
    first: &mut [u32],
    second: &mut [u32],
    num_in: usize,
    num_out: usize,
    bytes: &[u8],
) -> Reply
    ensures { Meets (λ capacity a. replace_glyphs capacity num_in num_out (words_of bytes.now) a) b first.old second.old result first.new second.new }
{
    replace_given(b, first, second, num_in, num_out, bytes)
}

// One glyph for one merges nothing, and does not overtake the cursor.
#[inline(always)]
#[tactic(auto, using(crate::proofs::ReplaceCalls::replace_calls, crate::proofs::WriteCalls::write_calls))]
fn one_verdict(b: Buffer, first: &[u32], second: &[u32], number: u32) -> Decision
    ensures { OutputDecided (λ capacity a. replace_glyphs capacity 1 1 (number ∷ []) a) (Some number) false b first.now second.now result }
{
    state::sound(b, first, second)?;
    if state::have_output(b.phase) {
        if b.len.0 <= b.idx.0 {
            return Err(Refusal::OutOfRange);
        }
        return verdicts::writes(b, records::glyphs::capacity(first), 1, 1, true);
    }
    Err(Refusal::WrongPhase)
}

// 0D
#[inline(always)]
pub fn replace_glyph(b: Buffer, first: &mut [u32], second: &mut [u32], number: u32) -> Reply
    ensures { Meets (λ capacity a. replace_glyphs capacity 1 1 (number ∷ []) a) b first.old second.old result first.new second.new }
{
    let decision = one_verdict(b, first, second, number);
    let at = state::lists_of(b);
    swapping::carry_out(
        b,
        decision,
        first,
        second,
        |run, other| puts::output(run, other, at, false, Some(number)),
    )
}
