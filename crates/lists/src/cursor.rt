// Calls on the counters and the cursor. Each decides, acts and settles. The number above a call is the one it has in document 01.
ghost use Rattle.std.specs.Prelude.{◌≡◌, cond, []};
ghost use Rattle.records.specs.{View.glyphs, View.Whole};
ghost use Rattle.lists.specs.Cursor.{fresh, enter, leave, allocate_lig_id, clear_output, clear_positions, next_glyphs, skip_glyph, sync, move_to};
ghost use Rattle.lists.specs.Contract.{account, sound};
ghost use Rattle.lists.specs.Contract.{Meets};

use super::{Buffer, Reply, cursor_moves, deciding, fills, moves, state, swapping, verdicts};
use records::{Phase, Position};

// 00
pub fn fresh(b: Buffer, first: &[u32], second: &[u32], level: u32, wants: u32) -> Reply
    ensures { Meets (λ capacity a. fresh level wants a) b first.now second.now result first.now second.now }
{
    let decision = deciding::fresh_verdict(b, first, second, wants);
    verdicts::settled_as(b, state::fresh_buffer(level, wants), decision)
}

// 24
#[tactic(auto, using(crate::proofs::Decisions::settling))]
pub fn enter(b: Buffer, first: &[u32], second: &[u32]) -> Reply
    ensures { Meets (λ capacity a. enter a) b first.now second.now result first.now second.now }
{
    let decision = deciding::enter_verdict(b, first, second);
    verdicts::settled(b, decision)
}

// 25
#[tactic(auto, using(crate::proofs::Decisions::settling))]
pub fn leave(b: Buffer, first: &[u32], second: &[u32]) -> Reply
    ensures { Meets (λ capacity a. leave a) b first.now second.now result first.now second.now }
{
    let decision = deciding::leave_verdict(b, first, second);
    verdicts::settled(b, decision)
}

// 26
#[tactic(auto, using(crate::proofs::Decisions::settling))]
pub fn allocate_lig_id(b: Buffer, first: &[u32], second: &[u32]) -> Reply
    ensures { Meets (λ capacity a. allocate_lig_id a) b first.now second.now result first.now second.now }
{
    let decision = deciding::lig_id_verdict(b, first, second);
    verdicts::settled(b, decision)
}

// 03. No word is written: the positions are gone with their phase.
#[inline(always)]
pub fn clear_output(b: Buffer, first: &[u32], second: &[u32]) -> Reply
    ensures { Meets (λ capacity a. clear_output a) b first.now second.now result first.now second.now }
{
    let decision = deciding::clear_verdict(b, first, second);
    verdicts::settled_as(b, state::restarted(b, Phase::Output), decision)
}

// 05
#[inline(always)]
pub fn clear_positions(b: Buffer, first: &mut [u32], second: &mut [u32]) -> Reply
    ensures { Meets (λ capacity a. clear_positions a) b first.old second.old result first.new second.new }
{
    let decision = deciding::clear_verdict(b, first, second);
    if verdicts::acts(decision) {
        swapping::act_on(
            first,
            second,
            b.swapped,
            |_run, other| fills::zero::<Position>(other, 0, b.len.0),
        );
    }
    verdicts::settled_as(b, state::positioned(b), decision)
}

// 09
#[inline(always)]
#[tactic(auto, using(crate::proofs::Decisions::settling))]
pub fn skip_glyph(b: Buffer, first: &[u32], second: &[u32]) -> Reply
    ensures { Meets (λ capacity a. skip_glyph a) b first.now second.now result first.now second.now }
{
    let decision = deciding::skip_verdict(b, first, second);
    verdicts::settled(b, decision)
}

// 08
#[inline(always)]
pub fn next_glyphs(b: Buffer, first: &mut [u32], second: &mut [u32], n: usize) -> Reply
    ensures { Meets (λ capacity a. next_glyphs capacity n a) b first.old second.old result first.new second.new }
{
    let decision = deciding::next_verdict(b, first, second, n);
    let to = b.out_len.0;
    swapping::carry_out(
        b,
        decision,
        first,
        second,
        |run, other| moves::carry(run, other, b.have_separate_output, b.idx.0, to, n),
    )
}

// 07
#[inline(always)]
pub fn next_glyph(b: Buffer, first: &mut [u32], second: &mut [u32]) -> Reply
    ensures { Meets (λ capacity a. next_glyphs capacity 1 a) b first.old second.old result first.new second.new }
{
    next_glyphs(b, first, second, 1)
}

// 04
#[inline(always)]
pub fn sync(b: Buffer, first: &mut [u32], second: &mut [u32]) -> Reply
    ensures { Meets (λ capacity a. sync capacity a) b first.old second.old result first.new second.new }
{
    let decision = deciding::sync_verdict(b, first, second);
    if verdicts::acts(decision) {
        let n = b.len.0 - b.idx.0;
        let to = b.out_len.0;
        swapping::act_on(
            first,
            second,
            b.swapped,
            |run, other| moves::carry(run, other, b.have_separate_output, b.idx.0, to, n),
        );
    }
    verdicts::synced(b, decision)
}

// 10
#[inline(always)]
pub fn move_to(b: Buffer, first: &mut [u32], second: &mut [u32], i: usize) -> Reply
    ensures { Meets (λ capacity a. move_to capacity i a) b first.old second.old result first.new second.new }
{
    let decision = cursor_moves::move_verdict(b, first, second, i);
    let lists = state::lists_of(b);
    let (len_after, out_after) = cursor_moves::lengths_after(decision);
    swapping::carry_out(
        b,
        decision,
        first,
        second,
        move |run, other| moves::move_run(run, other, lists, len_after, out_after),
    )
}

// The output part of whichever lent slice holds it; of a buffer that contradicts itself, nothing.
#[tactic(auto, using(crate::proofs::Simple::out_laws))]
pub fn out_info<'a>(b: Buffer, first: &'a [u32], second: &'a [u32]) -> &'a [u32]
    ensures { (glyphs result.now ≡ cond (sound b first.now second.now) (account b first.now second.now).done []) × (Whole result.now) }
{
    let output = swapping::one_of(first, second, b.swapped != b.have_separate_output);
    if state::is_sound(b, first, second) {
        return records::glyphs::first_of(output, b.out_len.0);
    }
    records::glyphs::first_of(output, 0)
}
