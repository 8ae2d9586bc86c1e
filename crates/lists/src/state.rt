// The state by value: its tests, and the states that calls leave.
ghost use Rattle.std.specs.Prelude.{◌≡◌, not, cond, Ok, Err, Some, None};
ghost use Rattle.lists.specs.Account.{output_phase, positions_phase, spoiled_phase, read_level};
ghost use Rattle.lists.specs.Contract.{Begins};
ghost use Rattle.lists.specs.{Contract.gone_of, Contract.in_order, inner.Held.Soundness, inner.Held.Tested, inner.Held.Unspoiled, inner.Held.room_for};
ghost use Rattle.lists.specs.inner.States.{most_output, at_places, lists_of, with_limits_of, fresh_buffer, apart_buffer, restarted_buffer, positioned_buffer, swapped_buffer, reply};

use super::{Buffer, Lists, Reply};
use records::{Answer, DonePlace, InputPlace, Limits, Phase, Refusal};

pub fn have_output(phase: Phase) -> bool
    ensures { result ≡ output_phase phase }
{
    phase == Phase::Output
}

pub fn have_positions(phase: Phase) -> bool
    ensures { result ≡ positions_phase phase }
{
    phase == Phase::Positions
}

pub fn is_spoiled(phase: Phase) -> bool
    ensures { result ≡ spoiled_phase phase }
{
    phase == Phase::Spoiled
}

// A level as document 01 reads it: one above 3 is 0. Only edits `search_level` asks the word itself, whether it is 3.
#[tactic(auto, unfolding(crate::specs::Account::read_level))]
pub fn read_level(level: u32) -> u32
    ensures { result ≡ read_level level }
{
    if level <= 3 { level } else { 0 }
}

// The most output that there can be: what is allocated where it lies apart, what the cursor left behind where it lies in the run.
#[tactic(auto, unfolding(crate::specs::inner::States::most_output))]
fn most_output(b: Buffer) -> usize
    ensures { result ≡ most_output b }
{
    if have_output(b.phase) {
        if b.have_separate_output {
            return b.limits.allocated;
        }
        return b.idx.0;
    }
    0
}

// Whether the counters agree with each other and with the capacity.
#[inline(always)]
#[tactic(auto, using(crate::proofs::SoundLaws::ordering))]
fn in_order(b: Buffer, capacity: usize) -> bool
    ensures { result ≡ in_order b capacity }
{
    let size = b.limits.allocated;
    b.idx.0 <= b.len.0 && b.len.0 <= size && size <= capacity && b.out_len.0 <= most_output(b)
}

// What refusal 1 tests: counters and lengths only.
#[inline(always)]
#[tactic(auto, using(crate::proofs::SoundLaws::ordering))]
pub fn is_sound(b: Buffer, first: &[u32], second: &[u32]) -> bool
    ensures { Soundness b first.now second.now result }
{
    records::glyphs::rightly_lent(first, second) && in_order(b, records::glyphs::capacity(first))
}

// Refusal 1, before all others.
#[inline(always)]
pub fn sound(b: Buffer, first: &[u32], second: &[u32]) -> Result<(), Refusal>
    ensures { Tested b first.now second.now result }
{
    if is_sound(b, first, second) {
        Ok(())
    } else {
        Err(Refusal::Contradiction)
    }
}

// Refusal 2 where the state is spoiled, the second test of most calls.
#[inline(always)]
pub(crate) fn unspoiled(b: Buffer) -> Result<(), Refusal>
    ensures { Unspoiled b result }
{
    if is_spoiled(b.phase) {
        Err(Refusal::WrongPhase)
    } else {
        Ok(())
    }
}

// "Needs size n": whether it is there, or else given up.
#[inline(always)]
#[tactic(auto, unfolding(crate::specs::inner::Held::room_for))]
pub fn room_for(l: Limits, capacity: usize, n: usize) -> Result<bool, Refusal>
    ensures { result ≡ room_for capacity n l }
{
    if n <= l.allocated {
        return Ok(true);
    }
    if l.max_len < n {
        return Ok(false);
    }
    if capacity < n {
        return Err(Refusal::OverCapacity);
    }
    Ok(true)
}

// What a call gives back that leaves this state.
pub fn reply(b: Buffer, answer: Answer) -> Reply
    ensures { result ≡ reply b answer }
{
    Reply { buffer: b, answer }
}

#[tactic(auto, unfolding(crate::specs::inner::States::with_limits_of))]
pub fn with_limits(b: Buffer, l: Limits) -> Buffer
    ensures { result ≡ with_limits_of l b }
{
    Buffer { limits: l, ..b }
}

// The three places of the cursor, of the input's end and of the output's end.
#[tactic(auto, unfolding(crate::specs::inner::States::at_places))]
pub fn at_places(b: Buffer, idx: usize, len: usize, out_len: usize) -> Buffer
    ensures { result ≡ at_places idx len out_len b }
{
    Buffer {
        idx: InputPlace(idx),
        len: InputPlace(len),
        out_len: DonePlace(out_len),
        ..b
    }
}

// The state of 00: no glyph, limits as they are at first, and a level and wants.
#[tactic(auto, unfolding(crate::specs::inner::States::fresh_buffer))]
pub fn fresh_buffer(level: u32, wants: u32) -> Buffer
    ensures { result ≡ fresh_buffer level wants }
{
    Buffer {
        idx: InputPlace(0),
        len: InputPlace(0),
        out_len: DonePlace(0),
        phase: Phase::Plain,
        limits: Limits::fresh(),
        level,
        wants,
        swapped: false,
        have_separate_output: false,
    }
}

impl Buffer {
    // The first buffer. Wants over 7 is refusal 4, and the buffer is then the one of wants 0.
    #[tactic(auto, using(crate::proofs::Simple::begins, crate::proofs::Simple::begins_refused))]
    pub fn new(level: u32, wants: u32) -> Reply
        ensures { Begins level wants result }
    {
        if 7 < wants {
            return reply(fresh_buffer(level, 0), Err(Refusal::BadOperand));
        }
        reply(fresh_buffer(level, wants), Ok(None))
    }
}

// The cursor at the start, and no output: in phase Output the run is input once more, and in phase Spoiled no list shows it.
#[tactic(auto, unfolding(crate::specs::inner::States::restarted_buffer))]
pub(crate) fn restarted(b: Buffer, phase: Phase) -> Buffer
    ensures { result ≡ restarted_buffer phase b }
{
    Buffer {
        idx: InputPlace(0),
        out_len: DonePlace(0),
        phase,
        have_separate_output: false,
        ..b
    }
}

#[tactic(auto, unfolding(crate::specs::inner::States::positioned_buffer))]
pub(crate) fn positioned(b: Buffer) -> Buffer
    ensures { result ≡ positioned_buffer b }
{
    Buffer {
        out_len: DonePlace(0),
        phase: Phase::Positions,
        have_separate_output: false,
        ..b
    }
}

// Whether the second slice holds the run once the output is the run: the slices change places where the output lay apart.
fn exchanged(swapped: bool, separate: bool) -> bool
    ensures { result ≡ cond separate (not swapped) swapped }
{
    swapped != separate
}

// The output as the run.
#[tactic(auto, unfolding(crate::specs::inner::States::swapped_buffer))]
pub(crate) fn swapped(b: Buffer) -> Buffer
    ensures { result ≡ swapped_buffer b }
{
    Buffer {
        idx: InputPlace(0),
        len: InputPlace(b.out_len.0),
        out_len: DonePlace(0),
        phase: Phase::Plain,
        swapped: exchanged(b.swapped, b.have_separate_output),
        have_separate_output: false,
        ..b
    }
}

// How many glyphs of the input no list shows.
#[tactic(auto, unfolding(crate::specs::Contract::gone_of))]
pub fn gone(b: Buffer) -> usize
    ensures { result ≡ gone_of b }
{
    match b.phase {
        Phase::Plain | Phase::Positions => 0,
        Phase::Output => b.idx.0,
        Phase::Spoiled => b.len.0,
    }
}

// Where the lists of a buffer lie.
#[inline(always)]
pub fn lists_of(b: Buffer) -> Lists
    ensures { result ≡ lists_of b }
{
    Lists {
        idx: b.idx.0,
        len: b.len.0,
        out_len: b.out_len.0,
        separate: b.have_separate_output,
    }
}
