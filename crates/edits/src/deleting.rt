// Deletion: call 0F. The numbers of calls are document 01's.
#![tactic(auto, using(crate::proofs::DeleteCalls::delete_acting, crate::proofs::DeleteCalls::delete_calls))]

ghost use Rattle.std.specs.Prelude.{◌≡◌, ◌<◌, ◌≤◌, Bool, length};
ghost use Rattle.records.specs.View.{glyphs};
ghost use Rattle.lists.specs.Contract.{Meets};
ghost use Rattle.lists.specs.Account.{read_level};
ghost use Rattle.edits.specs.Merging.{clusters_merge};
ghost use Rattle.edits.specs.Deleting.{delete_glyph};
ghost use Rattle.edits.specs.inner.Charges.{DecidedBy};
ghost use Rattle.edits.specs.inner.Deletes.{DeleteRoom, NextFound, LastFound, Surviving, Inherits, Deletes, merged_with};

use super::{Way, merge_acts, merges, merging, ways, writing};
use lists::swapping::Outcome;
use lists::{Buffer, Decision, Lists, Reply, Verdict, state, swapping, verdicts};
use records::Refusal;

// Whether the next glyph of the input has the cluster of the glyph at the cursor.
fn next_has(run: &[u32], idx: usize, len: usize) -> bool
    requires { (idx < len) × (len ≤ length (glyphs run.now)) }
    ensures { NextFound idx len run.now result }
{
    1 < len - idx
        && records::glyphs::cluster_at(run, idx + 1) == records::glyphs::cluster_at(run, idx)
}

// Whether the last glyph of the output has it.
fn last_has(run: &[u32], other: &[u32], lists: Lists) -> bool
    requires { (lists.idx < length (glyphs run.now)) × (lists.out_len ≤ length (glyphs run.now)) × (lists.out_len ≤ length (glyphs other.now)) }
    ensures { LastFound lists.separate lists.idx lists.out_len run.now other.now result }
{
    0 < lists.out_len
        && writing::last_done(run, other, lists.separate, lists.out_len).cluster
            == records::glyphs::cluster_at(run, lists.idx)
}

// Whether the cluster of the glyph at the cursor stays without it.
fn cluster_survives(run: &[u32], other: &[u32], lists: Lists) -> bool
    requires { DeleteRoom lists.idx lists.len lists.out_len run.now other.now }
    ensures { Surviving lists.separate lists.idx lists.len lists.out_len run.now other.now result }
{
    next_has(run, lists.idx, lists.len) || last_has(run, other, lists)
}

// The equal tail of the output takes the cluster of the glyph at the cursor, where that is lower.
fn inherit(run: &mut [u32], other: &mut [u32], lists: Lists)
    requires { (lists.idx < length (glyphs run.old)) × (lists.out_len ≤ length (glyphs run.old)) × (lists.out_len ≤ length (glyphs other.old)) × (0 < lists.out_len) }
    ensures { Inherits lists.separate lists.idx lists.out_len run.old other.old run.new other.new }
{
    let out_len = lists.out_len;
    let g = records::glyphs::get(run, lists.idx);
    let d = writing::last_done(run, other, lists.separate, out_len);
    if d.cluster <= g.cluster {
        return;
    }
    swapping::act_on(
        run,
        other,
        lists.separate,
        |out, _rest| merging::set_tail(out, out_len, d.cluster, g.cluster, g.mask),
    );
}

// The cluster of the glyph at the cursor goes to a neighbour. Whether the two were merged, which costs 2.
pub(crate) fn keep_cluster(run: &mut [u32], other: &mut [u32], lists: Lists, way: Way) -> bool
    requires way { way.merges ≡ clusters_merge (read_level way.level) }
    requires room { DeleteRoom lists.idx lists.len lists.out_len run.old other.old }
    ensures { Deletes lists.separate way.level way.wants lists.idx lists.len lists.out_len result run.old other.old run.new other.new }
{
    if cluster_survives(run, other, lists) {
        return false;
    }
    if 0 < lists.out_len {
        inherit(run, other, lists);
        return false;
    }
    if lists.len - lists.idx < 2 {
        return false;
    }
    merge_acts::merge_by(run, other, lists, way, lists.idx, lists.idx + 2);
    way.merges
}

// 0F. The cost of a merge is not in it: whether it merges is known only when the act is done.
#[inline(always)]
fn delete_verdict(b: Buffer, first: &[u32], second: &[u32]) -> Decision
    ensures { DecidedBy Bool merged_with (λ capacity a. delete_glyph a) b first.now second.now result (DeleteRoom b.idx.0 b.len.0 b.out_len.0 first.now second.now) (Deletes b.have_separate_output b.level b.wants b.idx.0 b.len.0 b.out_len.0) }
{
    state::sound(b, first, second)?;
    if state::have_output(b.phase) {
        if b.len.0 <= b.idx.0 {
            return Err(Refusal::OutOfRange);
        }
        let after = state::at_places(b, b.idx.0 + 1, b.len.0, b.out_len.0);
        return verdicts::leaves(after, true, None);
    }
    Err(Refusal::WrongPhase)
}

// A glyph is deleted; merged: its cluster went to the next by a merge, which costs 2.
#[derive(Clone, Copy)]
struct Deleted {
    merged: bool,
}

impl Outcome for Deleted {
    ghost amends = { λ d v. merged_with d.merged v };

    fn amend(self, v: &mut Verdict) {
        v.limits = merge_acts::merge_limits(v.limits, self.merged, 2);
    }
}

// 0F
#[inline(always)]
pub fn delete_glyph(b: Buffer, first: &mut [u32], second: &mut [u32]) -> Reply
    ensures { Meets (λ capacity a. delete_glyph a) b first.old second.old result first.new second.new }
{
    let lists = state::lists_of(b);
    let way = ways::way_of(b, merges::clusters_merge(b.level));
    let decision = delete_verdict(b, first, second);
    swapping::carry_out(
        b,
        decision,
        first,
        second,
        move |run, other| Deleted {
            merged: keep_cluster(run, other, lists, way),
        },
    )
}
