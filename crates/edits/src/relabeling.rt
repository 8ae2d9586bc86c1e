// Masks and clusters of the whole run: calls 1A and 1F. The numbers of calls are document 01's.
ghost use Rattle.std.specs.Prelude.{◌≡◌, ◌-◌, ◌<◌, ◌≤◌, ◌&&◌, ◌||◌, ◌++◌, length, take, drop, bit_and, bit_or, nat_le, nat_lt, slice_index_or, slice_set};
ghost use Rattle.records.specs.Glyphs.{change};
ghost use Rattle.records.specs.Ranges.{edit, is};
ghost use Rattle.records.specs.{View.glyphs, inner.Stores.zero_glyph};
ghost use Rattle.lists.specs.Contract.{Meets};
ghost use Rattle.edits.specs.WholeRun.{masked, set_masks, numbered, reset_clusters};
ghost use Rattle.edits.specs.inner.Relabels.{SetsMasks};

use super::whole;
use lists::{Buffer, Decision, Reply, state, swapping, verdicts};
use records::Refusal;

// Start 0 and the largest end stand for everywhere. No option: so document 01 lists the operands of 1A.
fn is_everywhere(start: u32, end: u32) -> bool
    ensures { result ≡ (is 0 start && is 4294967295 end) }
{
    start == 0 && end == u32::MAX
}

// Whether a glyph of this cluster is masked.
fn is_masked(cluster: u32, start: u32, end: u32) -> bool
    ensures { result ≡ ((is 0 start && is 4294967295 end) || (nat_le start cluster && nat_lt cluster end)) }
{
    is_everywhere(start, end) || (start..end).contains(&cluster)
}

// The bits that mask has come from value, the others stay.
#[tactic(auto, using(crate::proofs::Relabelings::replacing_bits))]
fn replaced_bits(old: u32, value: u32, mask: u32) -> u32
    ensures { result ≡ bit_or (old - bit_and mask old) (bit_and mask value) }
{
    (old - (mask & old)) | (mask & value)
}

#[tactic(auto, using(crate::proofs::Relabelings::relabeling))]
fn mask_glyph(ws: &mut [u32], i: usize, value: u32, mask: u32, start: u32, end: u32)
    requires { i < length (glyphs ws.old) }
    ensures { glyphs ws.new ≡ slice_set (glyphs ws.old) i (change (masked value mask start end) (slice_index_or (glyphs ws.old) i zero_glyph)) }
{
    if is_masked(records::glyphs::cluster_at(ws, i), start, end) {
        let old = records::glyphs::mask_at(ws, i);
        records::glyphs::set_mask(ws, i, replaced_bits(old, value, mask));
    }
}

// A count, and no part of the slice, here and in `number_clusters`: a function that returns the first part to be written, with the promise that
// the rest stays, does not prove. One that returns both parts does, but then to part the slice and to write are two functions each.
#[tactic(auto, using(lists::proofs::Editing::editing))]
fn mask_glyphs(ws: &mut [u32], n: usize, value: u32, mask: u32, start: u32, end: u32)
    requires { n ≤ length (glyphs ws.old) }
    ensures { glyphs ws.new ≡ edit 0 n (masked value mask start end) (glyphs ws.old) }
{
    for i in 0..n {
        mask_glyph(ws, i, value, mask, start, end);
    }
}

#[inline(always)]
#[tactic(auto, using(crate::proofs::Relabelings::mask_calls))]
fn masks_verdict(b: Buffer, first: &[u32], second: &[u32], mask: u32) -> Decision
    ensures { SetsMasks mask b first.now second.now result }
{
    state::sound(b, first, second)?;
    if whole::not_whole(b) {
        return Err(Refusal::WrongPhase);
    }
    if mask == 0 {
        return verdicts::leaves(b, false, None);
    }
    let paid = state::with_limits(b, b.limits.pay(b.len.0));
    verdicts::leaves(paid, true, None)
}

// 1A. Its four operands stay four, as document 01 lists them: one test reads the ends, and one expression the bits.
#[inline(always)]
pub fn set_masks(
    b: Buffer,
    first: &mut [u32],
    second: &mut [u32],
    value: u32,
    mask: u32,
    start: u32,
    end: u32,
) -> Reply
    ensures { Meets (λ capacity a. set_masks value mask start end a) b first.old second.old result first.new second.new }
{
    let decision = masks_verdict(b, first, second, mask);
    swapping::carry_out(
        b,
        decision,
        first,
        second,
        |run, _other| mask_glyphs(run, b.len.0, value, mask, start, end),
    )
}

// The first n glyphs get their places as clusters.
#[tactic(auto, using(crate::proofs::Relabelings::relabeling))]
fn number_clusters(ws: &mut [u32], n: usize)
    requires { (n ≤ length (glyphs ws.old)) × (n ≤ 1048576) }
    ensures { glyphs ws.new ≡ numbered 0 (take n (glyphs ws.old)) ++ drop n (glyphs ws.old) }
{
    for i in 0..n {
        records::glyphs::reset_cluster(ws, i, i as u32);
    }
}

// 1F
#[inline(always)]
pub fn reset_clusters(b: Buffer, first: &mut [u32], second: &mut [u32]) -> Reply
    ensures { Meets (λ capacity a. reset_clusters a) b first.old second.old result first.new second.new }
{
    let decision = whole::whole_verdict(b, first, second);
    swapping::carry_out(
        b,
        decision,
        first,
        second,
        |run, _other| number_clusters(run, b.len.0),
    )
}
