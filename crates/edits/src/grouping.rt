// Groups of neighbours in the whole run: what calls 1E and 22 make of each grapheme. The numbers of calls are document 01's.
#![tactic(auto, using(crate::proofs::MergeEach::merging_each))]

ghost use Rattle.lists.specs.Contract.{Meets};
ghost use Rattle.edits.specs.Groups.{form_clusters};
ghost use Rattle.edits.specs.inner.Charges.{MergesEach};
ghost use Rattle.edits.specs.inner.Wholes.{RunRoom};

use super::groups::Grouping;
use super::{Keyed, merge_acts, merges, ways, whole};
use lists::{Buffer, Reply, swapping};
use records::{Key, Limits};

// Each grapheme is merged, from the left. What is left of the limits.
pub(crate) fn merge_each(run: &mut [u32], other: &mut [u32], keyed: Keyed, limits: Limits) -> Limits
    requires { RunRoom keyed.len run.old other.old }
    ensures { MergesEach keyed.way.merges keyed.way.level keyed.way.wants keyed.len keyed.key.slot keyed.key.mask limits result run.old other.old run.new other.new }
{
    let mut left = limits;
    let mut s = 0;
    // No `for`: each step is as long as its grapheme. Nor `each_group`: with the limits handed from act to act, 22 costs 58.8
    // instructions a glyph, and 55.8 as it stands.
    while s < keyed.len {
        let e = keyed.key.end_of(run, s, keyed.len);
        merge_acts::merge_run(run, other, keyed.way, keyed.len, s, e);
        left = merge_acts::merge_limits(left, keyed.way.merges, e - s);
        s = e;
    }
    left
}

// 22
pub fn form_clusters(
    b: Buffer,
    first: &mut [u32],
    second: &mut [u32],
    slot: u32,
    mask: u32,
) -> Reply
    ensures { Meets (λ capacity a. form_clusters slot mask a) b first.old second.old result first.new second.new }
{
    let keyed = ways::keyed_of(b, merges::graphemes_merge(b.level), Key { slot, mask });
    let decision = whole::keyed_verdict(b, first, second, slot);
    swapping::carry_out(
        b,
        decision,
        first,
        second,
        move |run, other| merge_each(run, other, keyed, b.limits),
    )
}
