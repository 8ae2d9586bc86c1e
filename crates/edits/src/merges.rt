// Merging: calls 11 to 14. The numbers of calls are document 01's.
#![tactic(auto, using(crate::proofs::MergeCalls::merge_tests))]

ghost use Rattle.std.specs.Prelude.{◌≡◌, ◌||◌, nat_lt};
ghost use Rattle.lists.specs.Account.{read_level};
ghost use Rattle.lists.specs.Contract.{gone_of};
ghost use Rattle.lists.specs.Contract.{Meets};
ghost use Rattle.edits.specs.Merging.{merge_input, merge_done, clusters_merge, graphemes_merge};
ghost use Rattle.edits.specs.inner.MergeActs.{lies_apart, MeetsInput, MeetsDone};

use super::{merge_acts, merge_verdicts, ways};
use lists::{Buffer, Lists, Reply, state, swapping};
use records::{DonePlace, InputPlace};

// Whether there is an output and the other slice holds it. For 11 and 13, in place of the flag of the state, since `Merges` speaks of an account
// whose output lies so: a state without output may have the flag, and its other slice holds positions.
pub(crate) fn lies_apart(b: Buffer) -> bool
    ensures { result ≡ lies_apart b }
{
    state::have_output(b.phase) && b.have_separate_output
}

pub(crate) fn clusters_merge(level: u32) -> bool
    ensures { result ≡ clusters_merge (read_level level) }
{
    state::read_level(level) <= 1
}

pub(crate) fn graphemes_merge(level: u32) -> bool
    ensures { result ≡ graphemes_merge (read_level level) }
{
    let known = state::read_level(level);
    known == 0 || known == 3
}

// Whether s to e is no range of the input that a list shows.
pub(crate) fn outside_input(b: Buffer, s: usize, e: usize) -> bool
    ensures { result ≡ (nat_lt e s || (nat_lt b.len.0 e || nat_lt s (gone_of b))) }
{
    e < s || (b.len.0 < e || s < state::gone(b))
}

// 11 and 13, which merge at some levels, and flag at the others.
#[inline(always)]
fn merge_input(
    b: Buffer,
    first: &mut [u32],
    second: &mut [u32],
    merges: bool,
    start: InputPlace,
    end: InputPlace,
) -> Reply
    ensures { MeetsInput merges start end b first.old second.old result first.new second.new }
{
    let lists = Lists {
        separate: lies_apart(b),
        ..state::lists_of(b)
    };
    let way = ways::way_of(b, merges);
    let decision = merge_verdicts::merge_verdict(b, first, second, merges, start, end);
    swapping::carry_out(
        b,
        decision,
        first,
        second,
        move |run, other| merge_acts::merge_by(run, other, lists, way, start.0, end.0),
    )
}

// 12 and 14, which merge at some levels, and at the others do nothing.
#[inline(always)]
fn merge_done(
    b: Buffer,
    first: &mut [u32],
    second: &mut [u32],
    merges: bool,
    start: DonePlace,
    end: DonePlace,
) -> Reply
    ensures { MeetsDone merges start end b first.old second.old result first.new second.new }
{
    let lists = state::lists_of(b);
    let decision = merge_verdicts::merge_out_verdict(b, first, second, merges, start, end);
    swapping::carry_out(
        b,
        decision,
        first,
        second,
        move |run, other| merge_acts::merge_out_by(run, other, lists, merges, start.0, end.0),
    )
}

// 11
#[inline(always)]
pub fn merge_clusters(
    b: Buffer,
    first: &mut [u32],
    second: &mut [u32],
    start: InputPlace,
    end: InputPlace,
) -> Reply
    ensures { Meets (λ capacity a. merge_input (λ level. clusters_merge level) start end a) b first.old second.old result first.new second.new }
{
    merge_input(b, first, second, clusters_merge(b.level), start, end)
}

// 13
#[inline(always)]
pub fn merge_grapheme_clusters(
    b: Buffer,
    first: &mut [u32],
    second: &mut [u32],
    start: InputPlace,
    end: InputPlace,
) -> Reply
    ensures { Meets (λ capacity a. merge_input (λ level. graphemes_merge level) start end a) b first.old second.old result first.new second.new }
{
    merge_input(b, first, second, graphemes_merge(b.level), start, end)
}

// 12
#[inline(always)]
pub fn merge_out_clusters(
    b: Buffer,
    first: &mut [u32],
    second: &mut [u32],
    start: DonePlace,
    end: DonePlace,
) -> Reply
    ensures { Meets (λ capacity a. merge_done (λ level. clusters_merge level) start end a) b first.old second.old result first.new second.new }
{
    merge_done(b, first, second, clusters_merge(b.level), start, end)
}

// 14
#[inline(always)]
pub fn merge_out_grapheme_clusters(
    b: Buffer,
    first: &mut [u32],
    second: &mut [u32],
    start: DonePlace,
    end: DonePlace,
) -> Reply
    ensures { Meets (λ capacity a. merge_done (λ level. graphemes_merge level) start end a) b first.old second.old result first.new second.new }
{
    merge_done(b, first, second, graphemes_merge(b.level), start, end)
}
