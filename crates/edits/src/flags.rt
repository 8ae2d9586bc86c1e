// Flags over ranges of glyphs. The end of a range is not in it. By level and bits, and no `FlagForm`: they mark the interior alone, and merges
// flag so too.
ghost use Rattle.std.specs.Prelude.{◌≡◌, ◌+◌, ◌-◌, ◌<◌, ◌≤◌, ◌&&◌, ◌||◌, length, if◌then◌else◌};
ghost use Rattle.std.proofs.Math.Seq.{slice};
ghost use Rattle.records.specs.Ranges.{clusters, heads, is, isnt, tails};
ghost use Rattle.records.specs.View.{glyphs};
ghost use Rattle.lists.specs.Account.{read_level};
ghost use Rattle.edits.specs.Flags.{interior, search_level, sought, seeks_all};

use lists::state;

// The level whose way of searching and marking holds: bit 2 of wants gives level 3 that of level 2.
#[tactic(auto, unfolding(crate::specs::Flags::search_level, lists::specs::Account::read_level))]
pub(crate) fn search_level(level: u32, wants: u32) -> u32
    ensures { read_level result ≡ search_level (read_level level) wants }
{
    if level == 3 && wants / 4 % 2 == 1 {
        2
    } else {
        level
    }
}

// Whether the least cluster is sought in the whole range.
fn seeks_all(level: u32) -> bool
    ensures { result ≡ seeks_all (read_level level) }
{
    state::read_level(level) == 2
}

// Whether every glyph not of the cluster is marked. In branches: `||` was slower by a tenth where many short ranges are flagged.
#[tactic(auto, using(crate::proofs::FlagLaws::flag_laws))]
fn marks_all(level: u32, first: u32, last: u32, cluster: u32) -> bool
    ensures { result ≡ (seeks_all (read_level level) || (isnt cluster first && isnt cluster last)) }
{
    if seeks_all(level) {
        return true;
    }
    if first == cluster {
        return false;
    }
    last != cluster
}

// The interior form of a flag over a range, for a cluster that was sought. Where the first glyph has it, what is marked starts behind the last
// glyph that has it; where only the last glyph has it, what is marked ends before the first one that has it.
#[tactic(auto, using(crate::proofs::FlagLaws::flag_laws))]
pub(crate) fn mark_interior(ws: &mut [u32], level: u32, cluster: u32, bits: u32, s: usize, e: usize)
    requires { (s < e) × (e ≤ length (glyphs ws.old)) }
    ensures { glyphs ws.new ≡ interior (read_level level) cluster bits s e (glyphs ws.old) }
{
    let first = records::glyphs::cluster_at(ws, s);
    let last = records::glyphs::cluster_at(ws, e - 1);
    if marks_all(level, first, last, cluster) {
        lists::ranges::or_masks_unless(ws, s, e, cluster, bits);
    } else if first == cluster {
        let from = lists::ranges::other_start(ws, s, e, cluster);
        lists::ranges::or_masks(ws, from, e, bits);
    } else {
        let to = lists::ranges::other_end(ws, s, e, cluster);
        lists::ranges::or_masks(ws, s, to, bits);
    }
}

// The cluster that a flag form seeks in a range.
#[tactic(auto, using(crate::proofs::FlagLaws::flag_laws))]
pub(crate) fn sought_cluster(ws: &[u32], level: u32, s: usize, e: usize) -> u32
    requires { (s < e) × (e ≤ length (glyphs ws.now)) }
    ensures { result ≡ sought (read_level level) (slice s e (clusters (glyphs ws.now))) }
{
    if seeks_all(level) {
        return lists::ranges::least_cluster(ws, s, e);
    }
    let first = records::glyphs::cluster_at(ws, s);
    std::cmp::min(first, records::glyphs::cluster_at(ws, e - 1))
}

// The interior form of a flag over a range, for the cluster that it seeks there.
#[tactic(auto, using(crate::proofs::FlagLaws::flag_laws))]
pub(crate) fn flag_range(ws: &mut [u32], level: u32, bits: u32, s: usize, e: usize)
    requires { (s < e) × (e ≤ length (glyphs ws.old)) }
    ensures { glyphs ws.new ≡ interior (read_level level) (sought (read_level level) (slice s e (clusters (glyphs ws.old)))) bits s e (glyphs ws.old) }
{
    let m = sought_cluster(ws, level, s, e);
    mark_interior(ws, level, m, bits, s, e);
}
