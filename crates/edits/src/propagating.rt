// The flags of neighbours of one cluster: call 23. The numbers of calls are document 01's.
ghost use Rattle.std.specs.Prelude.{◌≡◌, ◌%◌, ◌<◌, ◌≤◌, map, length, get_or, slice_index_or, slice_set};
ghost use Rattle.std.proofs.Math.Seq.{slice};
ghost use Rattle.records.specs.Glyphs.{Info, change, with_mask};
ghost use Rattle.records.specs.Ranges.{infos, edit};
ghost use Rattle.records.specs.{View.glyphs, inner.Stores.zero_glyph};
ghost use Rattle.lists.specs.inner.Masks.{joined_low};
ghost use Rattle.lists.specs.Contract.{Meets};
ghost use Rattle.edits.specs.Groups.{flag_table};
ghost use Rattle.edits.specs.Groups.{settled_mask, propagate_flags};
ghost use Rattle.edits.specs.inner.Propagating.{PropagatesRun};

use super::groups::OneCluster;
use super::{flag_table, groups, whole};
use lists::{Buffer, Reply, swapping, verdicts};

// The mask of one glyph becomes what the table has at its bits.
#[tactic(auto, using(crate::proofs::Propagations::propagating))]
fn propagate_one(run: &mut [u32], table: &[u32], wants: u32, s: usize)
    requires { (table.now ≡ flag_table) × (s < length (glyphs run.old)) }
    ensures { glyphs run.new ≡ slice_set (glyphs run.old) s (change (with_mask (settled_mask wants ((get_or (glyphs run.old) s zero_glyph).info.mask % 8))) (slice_index_or (glyphs run.old) s zero_glyph)) }
{
    let mask = flag_table::group_mask(table, wants, records::glyphs::mask_at(run, s) % 8);
    records::glyphs::set_mask(run, s, mask);
}

// The masks of a group become what the table has at their joined bits.
#[tactic(auto, using(crate::proofs::Propagations::propagating))]
fn propagate_group(run: &mut [u32], table: &[u32], wants: u32, s: usize, e: usize)
    requires { (table.now ≡ flag_table) × (s ≤ e) × (e ≤ length (glyphs run.old)) }
    ensures { glyphs run.new ≡ edit s e (with_mask (settled_mask wants (joined_low (slice s e (map (λ (i : Info). i.mask) (infos (glyphs run.old))))))) (glyphs run.old) }
{
    // Most groups are one glyph: without a way of their own 23 costs 53.1 instructions a glyph, and 25.1 so.
    if e - s == 1 {
        propagate_one(run, table, wants, s);
        return;
    }
    let mask = flag_table::group_mask(table, wants, lists::masks::joined_masks(run, s, e));
    lists::masks::fill_masks(run, s, e, mask);
}

// The same of each group of one cluster, from the left. The table is lent, so that it is laid out once a call: a constant that the loop reads
// costs 65.1 instructions a glyph, where this costs 51.1.
fn propagate_each(run: &mut [u32], other: &mut [u32], table: &[u32], wants: u32, n: usize)
    requires { (table.now ≡ flag_table) × (n ≤ length (glyphs run.old)) }
    ensures { PropagatesRun wants n run.old other.old run.new other.new }
{
    groups::each_group(run, other, n, &OneCluster, |run, _other, s, e| {
        propagate_group(run, table, wants, s, e)
    });
}

// The same with the table. With a count, and not of a part of the slice: relabeling says why, at `mask_glyphs`.
fn propagate_run(run: &mut [u32], other: &mut [u32], wants: u32, n: usize)
    requires { n ≤ length (glyphs run.old) }
    ensures { PropagatesRun wants n run.old other.old run.new other.new }
{
    propagate_each(run, other, &flag_table::FLAG_TABLE, wants, n);
}

// 23
pub fn propagate_flags(b: Buffer, first: &mut [u32], second: &mut [u32]) -> Reply
    ensures { Meets (λ capacity a. propagate_flags a) b first.old second.old result first.new second.new }
{
    let decision = whole::whole_verdict(b, first, second);
    swapping::carry_out(
        b,
        decision,
        first,
        second,
        |run, other| propagate_run(run, other, b.wants, b.len.0),
    )
}
