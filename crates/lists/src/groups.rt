// Groups of neighbours: where the group ends that starts at a place.
ghost use Rattle.std.specs.Prelude.{◌≡◌, map, ◌+◌, ◌≤◌, ◌<◌, length, get_or};
ghost use Rattle.std.proofs.Math.Seq.{slice};
ghost use Rattle.records.specs.Glyphs.{key};
ghost use Rattle.records.specs.Ranges.{infos, clusters, is, isnt, heads};
ghost use Rattle.records.specs.View.{glyphs};

use super::ranges;
use records::Key;

// A glyph with a nonzero key continues its grapheme.
#[tactic(auto, using(crate::proofs::Runs::running, std::proofs::Common::rules))]
pub fn grapheme_end(ws: &[u32], s: usize, e: usize, by: Key) -> usize
    requires { (s < e) × (e ≤ length (glyphs ws.now)) }
    ensures { result ≡ s + 1 + heads (isnt 0) (slice (s + 1) e (map (key by.slot by.mask) (infos (glyphs ws.now)))) }
{
    for i in s + 1..e {
        if records::glyphs::key_at(ws, i, by) == 0 {
            return i;
        }
    }
    e
}

// Neighbours of one cluster.
pub fn cluster_end(ws: &[u32], s: usize, e: usize) -> usize
    requires { (s < e) × (e ≤ length (glyphs ws.now)) }
    ensures { result ≡ s + 1 + heads (is (get_or (clusters (glyphs ws.now)) s 4294967295)) (slice (s + 1) e (clusters (glyphs ws.now))) }
{
    ranges::equal_end(ws, s + 1, e, records::glyphs::cluster_at(ws, s))
}
