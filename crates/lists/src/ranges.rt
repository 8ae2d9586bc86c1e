// Ranges of glyphs: searched, and changed glyph by glyph. The end is not in the range.
// It is two places and no part of the slice: only `records` knows where words lie, how many glyphs a part holds would be counted again, by a
// division, and a part that is to be written does not prove.
// It is no `Range` of std: one of those may end before its start, so that `s ≤ e` would stand in each contract all the same. A pair of our own
// would need that as its invariant, and each caller would make one of its two places.
ghost use Rattle.std.specs.Prelude.{◌≡◌, ◌+◌, ◌-◌, ◌≤◌, length};
ghost use Rattle.std.proofs.Math.Seq.{slice};
ghost use Rattle.records.specs.Glyphs.{set_cluster, flagged, flagged_unless};
ghost use Rattle.records.specs.Ranges.{clusters, edit, is, isnt, least, heads, tails};
ghost use Rattle.records.specs.View.{glyphs};

use std::cmp;

// The least cluster of a range. Of an empty one it is the largest word, as the account's `least` of an empty list is.
#[tactic(auto, using(crate::proofs::Runs::running))]
pub fn least_cluster(ws: &[u32], s: usize, e: usize) -> u32
    requires { (s ≤ e) × (e ≤ length (glyphs ws.now)) }
    ensures { result ≡ least (slice s e (clusters (glyphs ws.now))) }
{
    let mut m = u32::MAX;
    for i in (s..e).rev() {
        m = cmp::min(m, records::glyphs::cluster_at(ws, i));
    }
    m
}

// The end of the run of glyphs of a cluster that starts at a place.
#[tactic(auto, using(crate::proofs::Runs::running))]
pub fn equal_end(ws: &[u32], e: usize, len: usize, cluster: u32) -> usize
    requires { (e ≤ len) × (len ≤ length (glyphs ws.now)) }
    ensures { result ≡ e + heads (is cluster) (slice e len (clusters (glyphs ws.now))) }
{
    for i in e..len {
        if records::glyphs::cluster_at(ws, i) != cluster {
            return i;
        }
    }
    len
}

// The start of the run of glyphs of a cluster that ends at a place, not below the floor.
#[tactic(auto, using(crate::proofs::Runs::running))]
pub fn equal_start(ws: &[u32], s: usize, floor: usize, cluster: u32) -> usize
    requires { s ≤ length (glyphs ws.now) }
    ensures { result ≡ s - tails (is cluster) (slice floor s (clusters (glyphs ws.now))) }
{
    for i in (floor..s).rev() {
        if records::glyphs::cluster_at(ws, i) != cluster {
            return i + 1;
        }
    }
    floor.min(s)
}

// The first place of a range whose glyph has a cluster, or its end.
#[tactic(auto, using(crate::proofs::Runs::running))]
pub fn other_end(ws: &[u32], s: usize, e: usize, cluster: u32) -> usize
    requires { (s ≤ e) × (e ≤ length (glyphs ws.now)) }
    ensures { result ≡ s + heads (isnt cluster) (slice s e (clusters (glyphs ws.now))) }
{
    for i in s..e {
        if records::glyphs::cluster_at(ws, i) == cluster {
            return i;
        }
    }
    e
}

// The place behind the last glyph of a range that has a cluster, or its start.
#[tactic(auto, using(crate::proofs::Runs::running))]
pub fn other_start(ws: &[u32], s: usize, e: usize, cluster: u32) -> usize
    requires { e ≤ length (glyphs ws.now) }
    ensures { result ≡ e - tails (isnt cluster) (slice s e (clusters (glyphs ws.now))) }
{
    for i in (s..e).rev() {
        if records::glyphs::cluster_at(ws, i) == cluster {
            return i + 1;
        }
    }
    s.min(e)
}

// A range of glyphs gets a cluster.
#[tactic(auto, using(crate::proofs::Editing::editing))]
pub fn set_clusters(ws: &mut [u32], s: usize, e: usize, cluster: u32, mask: u32)
    requires { (s ≤ e) × (e ≤ length (glyphs ws.old)) }
    ensures { glyphs ws.new ≡ edit s e (set_cluster cluster mask) (glyphs ws.old) }
{
    for i in s..e {
        records::glyphs::set_cluster(ws, i, cluster, mask);
    }
}

// A range of glyphs gets bits of the mask.
#[tactic(auto, using(crate::proofs::Editing::editing))]
pub fn or_masks(ws: &mut [u32], s: usize, e: usize, bits: u32)
    requires { (s ≤ e) × (e ≤ length (glyphs ws.old)) }
    ensures { glyphs ws.new ≡ edit s e (flagged bits) (glyphs ws.old) }
{
    for i in s..e {
        records::glyphs::or_mask(ws, i, bits);
    }
}

// The glyphs of a range that are not of a cluster get bits of the mask.
#[tactic(auto, using(crate::proofs::Editing::editing))]
pub fn or_masks_unless(ws: &mut [u32], s: usize, e: usize, cluster: u32, bits: u32)
    requires { (s ≤ e) × (e ≤ length (glyphs ws.old)) }
    ensures { glyphs ws.new ≡ edit s e (flagged_unless cluster bits) (glyphs ws.old) }
{
    for i in s..e {
        records::glyphs::or_mask_unless(ws, i, cluster, bits);
    }
}
