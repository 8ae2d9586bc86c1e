// Flags: calls 15 to 19. Each decides, acts and settles. A form that does not mark interiorly is a concat form: so the account's definitions
// name the two.
// The numbers of calls are document 01's.
ghost use Rattle.std.specs.Prelude.{◌≡◌, true, false, not, ◌||◌, ltb, if◌then◌else◌, nat_lt};
ghost use Rattle.lists.specs.Account.{read_level};
ghost use Rattle.lists.specs.Contract.{gone_of};
ghost use Rattle.lists.specs.Contract.{Meets};
ghost use Rattle.edits.specs.Flags.{wants_concat, wants_tatweel, search_level, place_number, too_far, plain_form, outbuffer_form};
ghost use Rattle.edits.specs.inner.{BoundNumbers.input_number};
ghost use Rattle.edits.specs.inner.Marks.{FlagVerdict, PlainMeets, OutMeets};

use super::bounds::{self, Place};
use super::flags;
use super::marking::{self, FlagForm};
use lists::{Buffer, Decision, Reply, state, swapping, verdicts};
use records::{DonePlace, InputPlace, Refusal};

// The bits of wants by division and remainder, as the definitions of the account read them, here, below and in `search_level`.
fn wants_concat(wants: u32) -> bool
    ensures { result ≡ wants_concat wants }
{
    wants % 2 == 1
}

fn tatweel_bits(wants: u32) -> u32
    ensures { result ≡ (if wants_tatweel wants then 4 else 3) }
{
    if wants / 2 % 2 == 1 { 4 } else { 3 }
}

// Whether a form does nothing: a concat form unwanted, or its bounds too far from each other.
fn idles<P: Place>(interiorly: bool, wants: u32, start: Option<P>, end: Option<InputPlace>) -> bool
    ensures { result ≡ (not (interiorly || wants_concat wants) || too_far (place_number P.number start) (input_number end)) }
{
    !(interiorly || wants_concat(wants)) || bounds::too_far(start, end)
}

fn outside_flags(b: Buffer, s: usize, e: usize) -> bool
    ensures { result ≡ (nat_lt e s || nat_lt s (gone_of b)) }
{
    e < s || s < state::gone(b)
}

fn outside_out(b: Buffer, s: usize, e: usize) -> bool
    ensures { result ≡ (ltb b.out_len.0 s || nat_lt e b.idx.0) }
{
    b.out_len.0 < s || e < b.idx.0
}

// The decision of a form, by its tests: whether the phase is wrong, whether it does nothing, and whether a place lies outside. Its two callers
// make the tests: with them inside there would be two functions of the same four steps.
#[inline(always)]
#[tactic(auto, using(crate::proofs::FlagCalls::flag_verdicts))]
fn verdict(
    b: Buffer,
    first: &[u32],
    second: &[u32],
    wrong_phase: bool,
    idle: bool,
    outside: bool,
) -> Decision
    ensures { FlagVerdict b first.now second.now wrong_phase idle outside result }
{
    state::sound(b, first, second)?;
    if wrong_phase {
        return Err(Refusal::WrongPhase);
    }
    if idle {
        return verdicts::leaves(b, false, None);
    }
    if outside {
        return Err(Refusal::OutOfRange);
    }
    verdicts::leaves(b, true, None)
}

// A concat form marks every glyph, the others the interior.
#[inline(always)]
fn form_of(b: Buffer, interiorly: bool, bits: u32) -> FlagForm
    ensures { (result.interiorly ≡ interiorly) × (read_level result.level ≡ search_level (read_level b.level) b.wants) × (result.bits ≡ bits) }
{
    FlagForm {
        interiorly,
        level: flags::search_level(b.level, b.wants),
        bits,
    }
}

// A plain form, on a range of the input: 15 to 17.
#[inline(always)]
fn flag_plain(
    b: Buffer,
    first: &mut [u32],
    second: &mut [u32],
    interiorly: bool,
    bits: u32,
    start: Option<InputPlace>,
    end: Option<InputPlace>,
) -> Reply
    ensures { PlainMeets interiorly bits start end b first.old second.old result first.new second.new }
{
    let s = bounds::start(start);
    let e = bounds::end(end, b.len.0);
    let spoiled = state::is_spoiled(b.phase);
    let idle = idles(interiorly, b.wants, start, end);
    let decision = verdict(b, first, second, spoiled, idle, outside_flags(b, s, e));
    let form = form_of(b, interiorly, bits);
    swapping::carry_out(
        b,
        decision,
        first,
        second,
        |run, _other| marking::flag_run(run, form, s, e),
    )
}

// An outbuffer form, on a range from the output into the input: 18 and 19. Other phases refuse it than the plain form, other places lie
// outside, and it marks both lists.
#[inline(always)]
fn flag_outbuffer(
    b: Buffer,
    first: &mut [u32],
    second: &mut [u32],
    interiorly: bool,
    bits: u32,
    start: Option<DonePlace>,
    end: Option<InputPlace>,
) -> Reply
    ensures { OutMeets interiorly bits start end b first.old second.old result first.new second.new }
{
    let s = bounds::start(start);
    let e = bounds::end(end, b.len.0);
    let lacks_output = !state::have_output(b.phase);
    let idle = idles(interiorly, b.wants, start, end);
    let decision = verdict(b, first, second, lacks_output, idle, outside_out(b, s, e));
    let form = form_of(b, interiorly, bits);
    let at = state::lists_of(b);
    swapping::carry_out(
        b,
        decision,
        first,
        second,
        |run, other| marking::flag_out(run, other, at, form, s, e),
    )
}

// 15
#[inline(always)]
#[tactic(auto, using(crate::proofs::FlagCalls::plain_meets))]
pub fn unsafe_to_break(
    b: Buffer,
    first: &mut [u32],
    second: &mut [u32],
    start: Option<InputPlace>,
    end: Option<InputPlace>,
) -> Reply
    ensures { Meets (λ capacity a. plain_form true true 3 start end a) b first.old second.old result first.new second.new }
{
    flag_plain(b, first, second, true, 3, start, end)
}

// 16
#[inline(always)]
#[tactic(auto, using(crate::proofs::FlagCalls::plain_meets))]
pub fn unsafe_to_concat(
    b: Buffer,
    first: &mut [u32],
    second: &mut [u32],
    start: Option<InputPlace>,
    end: Option<InputPlace>,
) -> Reply
    ensures { Meets (λ capacity a. plain_form false (wants_concat a.state.wants) 2 start end a) b first.old second.old result first.new second.new }
{
    flag_plain(b, first, second, false, 2, start, end)
}

// 17. Unwanted, it is 15.
#[inline(always)]
#[tactic(auto, using(crate::proofs::FlagCalls::tatweel_meets))]
pub fn safe_to_insert_tatweel(
    b: Buffer,
    first: &mut [u32],
    second: &mut [u32],
    start: Option<InputPlace>,
    end: Option<InputPlace>,
) -> Reply
    ensures { Meets (λ capacity a. plain_form true true (if wants_tatweel a.state.wants then 4 else 3) start end a) b first.old second.old result first.new second.new }
{
    flag_plain(b, first, second, true, tatweel_bits(b.wants), start, end)
}

// 18
#[inline(always)]
#[tactic(auto, using(crate::proofs::OutFlagCalls::out_meets))]
pub fn unsafe_to_break_from_outbuffer(
    b: Buffer,
    first: &mut [u32],
    second: &mut [u32],
    start: Option<DonePlace>,
    end: Option<InputPlace>,
) -> Reply
    ensures { Meets (λ capacity a. outbuffer_form true true 3 start end a) b first.old second.old result first.new second.new }
{
    flag_outbuffer(b, first, second, true, 3, start, end)
}

// 19
#[inline(always)]
#[tactic(auto, using(crate::proofs::OutFlagCalls::out_meets))]
pub fn unsafe_to_concat_from_outbuffer(
    b: Buffer,
    first: &mut [u32],
    second: &mut [u32],
    start: Option<DonePlace>,
    end: Option<InputPlace>,
) -> Reply
    ensures { Meets (λ capacity a. outbuffer_form false (wants_concat a.state.wants) 2 start end a) b first.old second.old result first.new second.new }
{
    flag_outbuffer(b, first, second, false, 2, start, end)
}
