// Merges of ranges of glyphs. A plan only reads; then the glyphs are written.
#![tactic(auto, using(crate::proofs::MergePlans::planning, crate::proofs::MergeLaws::merging, crate::proofs::OutMerges::out_merging))]

ghost use Rattle.std.specs.Prelude.{◌≡◌, ◌-◌, ◌<◌, ◌≤◌, length};
ghost use Rattle.std.proofs.Math.Seq.{slice};
ghost use Rattle.records.specs.Glyphs.{set_cluster};
ghost use Rattle.records.specs.Ranges.{clusters, edit, is, tails};
ghost use Rattle.records.specs.View.{glyphs};
ghost use Rattle.lists.specs.inner.Verdicts.{Sided};
ghost use Rattle.edits.specs.Merging.{merge_start, merge_end};
ghost use Rattle.edits.specs.inner.Holding.{cut};
ghost use Rattle.edits.specs.inner.MergeActs.{MergeRoom, OutMergeRoom};
ghost use Rattle.edits.specs.inner.Plans.{MergeRange, merge_plan, Tailed, Written, out_plan, merged_head, OutWritten};

use super::Plan;
use lists::{Lists, swapping};

// ---- a merge in the input

fn merge_end(run: &[u32], lists: Lists, s: usize, e: usize, lowest: u32) -> usize
    requires { MergeRange (glyphs run.now) lists.len s e lowest }
    ensures { result ≡ merge_end s e (cut lists.len (glyphs run.now)) }
{
    let last = records::glyphs::cluster_at(run, e - 1);
    if last == lowest {
        e
    } else {
        lists::ranges::equal_end(run, e, lists.len, last)
    }
}

fn merge_start(run: &[u32], lists: Lists, s: usize, e: usize, lowest: u32) -> usize
    requires { MergeRange (glyphs run.now) lists.len s e lowest }
    ensures { result ≡ merge_start lists.idx s e (cut lists.len (glyphs run.now)) }
{
    let leader = records::glyphs::cluster_at(run, s);
    if leader == lowest {
        s
    } else {
        lists::ranges::equal_start(run, s, lists.idx, leader)
    }
}

fn plan_merge(run: &[u32], lists: Lists, s: usize, e: usize) -> Plan
    requires { (s < e) × (e ≤ lists.len) × (lists.len ≤ length (glyphs run.now)) }
    ensures { result ≡ merge_plan lists.idx s e (cut lists.len (glyphs run.now)) }
{
    let lowest = lists::ranges::least_cluster(run, s, e);
    let leader = records::glyphs::cluster_at(run, s);
    let from = merge_start(run, lists, s, e, lowest);
    let to = merge_end(run, lists, s, e, lowest);
    Plan {
        lowest,
        from,
        to,
        along: (from == lists.idx && leader != lowest).then_some(leader),
    }
}

// The glyphs at the end of the output that have the cluster `old` get another.
pub(crate) fn set_tail(out: &mut [u32], out_len: usize, old: u32, cluster: u32, mask: u32)
    requires { out_len ≤ length (glyphs out.old) }
    ensures { glyphs out.new ≡ edit (out_len - tails (is old) (cut out_len (glyphs out.old))) out_len (set_cluster cluster mask) (glyphs out.old) }
{
    let at = lists::ranges::equal_start(out, out_len, 0, old);
    lists::ranges::set_clusters(out, at, out_len, cluster, mask);
}

// The equal tail of the output, where it goes along.
fn merge_tail(run: &mut [u32], other: &mut [u32], lists: Lists, p: Plan)
    requires { (lists.out_len ≤ length (glyphs run.old)) × (lists.out_len ≤ length (glyphs other.old)) }
    ensures { Sided lists.separate (Tailed p lists.out_len) run.old other.old run.new other.new }
{
    if let Some(old) = p.along {
        swapping::act_on(
            run,
            other,
            lists.separate,
            |out, _rest| set_tail(out, lists.out_len, old, p.lowest, 0),
        );
    }
}

// A merge of the places s to e of the run, wherever the output lies.
pub(crate) fn merge(run: &mut [u32], other: &mut [u32], lists: Lists, s: usize, e: usize)
    requires { (s < e) × MergeRoom lists.len lists.out_len s e run.old other.old }
    ensures { Written lists.separate lists.idx lists.len lists.out_len s e run.old other.old run.new other.new }
{
    let p = plan_merge(run, lists, s, e);
    merge_tail(run, other, lists, p);
    lists::ranges::set_clusters(run, p.from, p.to, p.lowest, 0);
}

// ---- a merge in the output

fn plan_out(out: &[u32], lists: Lists, s: usize, e: usize) -> Plan
    requires { (s < e) × (e ≤ lists.out_len) × (lists.out_len ≤ length (glyphs out.now)) }
    ensures { result ≡ out_plan s e (cut lists.out_len (glyphs out.now)) }
{
    let lowest = lists::ranges::least_cluster(out, s, e);
    let first = records::glyphs::cluster_at(out, s);
    let closer = records::glyphs::cluster_at(out, e - 1);
    let from = lists::ranges::equal_start(out, s, 0, first);
    let to = lists::ranges::equal_end(out, e, lists.out_len, closer);
    Plan {
        lowest,
        from,
        to,
        along: (to == lists.out_len).then_some(closer),
    }
}

// The equal head of the input, where it goes along.
fn merge_head(run: &mut [u32], lists: Lists, p: Plan)
    requires { (lists.idx ≤ lists.len) × (lists.len ≤ length (glyphs run.old)) }
    ensures { glyphs run.new ≡ merged_head p lists.idx lists.len (glyphs run.old) }
{
    if let Some(cluster) = p.along {
        let at = lists::ranges::equal_end(run, lists.idx, lists.len, cluster);
        lists::ranges::set_clusters(run, lists.idx, at, p.lowest, 0);
    }
}

// A merge of the places s to e of the output, wherever it lies. In branches: with the plan and the writing by `act_on`, instructions grew by
// 1.5 in a hundred where the output merges, and with the plan read from the slice that `one_of` gives and the writing by `act_on`, by 5, and
// by 9 in long chains.
pub(crate) fn merge_out(run: &mut [u32], other: &mut [u32], lists: Lists, s: usize, e: usize)
    requires { (s < e) × OutMergeRoom lists.idx lists.len lists.out_len s e run.old other.old }
    ensures { OutWritten lists.separate lists.idx lists.len lists.out_len s e run.old other.old run.new other.new }
{
    if lists.separate {
        let p = plan_out(other, lists, s, e);
        merge_head(run, lists, p);
        lists::ranges::set_clusters(other, p.from, p.to, p.lowest, 0);
    } else {
        let p = plan_out(run, lists, s, e);
        merge_head(run, lists, p);
        lists::ranges::set_clusters(run, p.from, p.to, p.lowest, 0);
    }
}
