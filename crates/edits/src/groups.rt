// Groups of neighbours in the run: what makes them, and an act on each.
ghost use Rattle.std.specs.Prelude.{Bool, ◌<◌, ◌≤◌, length};
ghost use Rattle.records.specs.Glyphs.{Info};
ghost use Rattle.records.specs.View.{glyphs};
ghost use Rattle.edits.specs.Groups.{same_cluster, continues};
ghost use Rattle.edits.specs.inner.Reversals.{EndsGroup};
ghost use Rattle.edits.specs.inner.Grouped.{MayActOnEach, ActedOnEach};

use records::Key;

// What makes groups of neighbours.
pub(crate) trait Grouping {
    // whether the second of two neighbours goes on with the group of the first
    ghost goes_on: { Self → Info → Info → Bool };

    // The end of the group that starts at s, among the glyphs up to e.
    fn end_of(&self, ws: &[u32], s: usize, e: usize) -> usize
        requires { (s < e) × (e ≤ length (glyphs ws.now)) }
        ensures { EndsGroup (goes_on self.now) ws.now s e result };
}

pub(crate) struct OneCluster;

impl Grouping for OneCluster {
    ghost goes_on = { λ g. same_cluster };

    fn end_of(&self, ws: &[u32], s: usize, e: usize) -> usize {
        lists::groups::cluster_end(ws, s, e)
    }
}

// Graphemes.
impl Grouping for Key {
    ghost goes_on = { λ k. continues k.slot k.mask };

    fn end_of(&self, ws: &[u32], s: usize, e: usize) -> usize {
        lists::groups::grapheme_end(ws, s, e, *self)
    }
}

// An act on each group of the first n glyphs, from the left.
#[tactic(auto, using(crate::proofs::EachGroup::on_each))]
pub(crate) fn each_group<G: Grouping, F: Fn(&mut [u32], &mut [u32], usize, usize)>(
    run: &mut [u32],
    other: &mut [u32],
    n: usize,
    grouping: &G,
    act: F,
)
    requires { MayActOnEach F.Fn act n run.old other.old }
    ensures { ActedOnEach F.Fn act (G.goes_on grouping.now) n run.old other.old run.new other.new }
{
    let mut s = 0;
    // No `for`: each step is as long as its group.
    while s < n {
        let e = grouping.end_of(run, s, n);
        act(run, other, s, e);
        s = e;
    }
}
