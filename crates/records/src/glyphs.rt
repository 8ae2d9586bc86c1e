// Glyphs in a slice of words, six words a glyph: glyph number, mask, cluster, var0, var1, origin.
#![tactic(auto, using(crate::proofs::Stores::glyph_words))]

ghost use Rattle.std.specs.Prelude.{◌≡◌, ◌+◌, ◌<◌, ◌≤◌, length, get_or, take, set, slice_index_or, slice_set};
ghost use Rattle.records.specs.Counters.{capacity_of, rightly_lent};
ghost use Rattle.records.specs.Glyphs.{blank, change, set_cluster, with_cluster, with_mask, with_origin, flagged, flagged_unless, key};
ghost use Rattle.records.specs.Ranges.{clusters};
ghost use Rattle.records.specs.{View.glyphs, View.Whole, View.seen, inner.Stores.zero_glyph};

use super::words::GlyphWord;
use super::{GlyphInfo, Key, words};

// How many glyphs a slice holds.
#[tactic(auto, unfolding(crate::specs::Counters::capacity_of))]
pub fn capacity(ws: &[u32]) -> usize
    ensures { result ≡ capacity_of (length ws.now) }
{
    ws.len() / words::WORDS
}

// What refusal 1 reads of the two lent slices.
#[tactic(auto, unfolding(crate::specs::Counters::rightly_lent, crate::specs::Counters::capacity_of))]
pub fn rightly_lent(first: &[u32], second: &[u32]) -> bool
    ensures { result ≡ rightly_lent (length first.now) (length second.now) }
{
    let n = first.len();
    n == second.len() && n % words::WORDS == 0 && capacity(first) <= words::MOST
}

pub fn get(ws: &[u32], i: usize) -> GlyphInfo
    requires { i < length (glyphs ws.now) }
    ensures { seen result ≡ slice_index_or (glyphs ws.now) i zero_glyph }
{
    let glyph = words::word_at(ws, GlyphWord::Glyph, i);
    let mask = words::word_at(ws, GlyphWord::Mask, i);
    let cluster = words::word_at(ws, GlyphWord::Cluster, i);
    let var0 = words::word_at(ws, GlyphWord::Var0, i);
    let var1 = words::word_at(ws, GlyphWord::Var1, i);
    let origin = words::word_at(ws, GlyphWord::Origin, i);
    GlyphInfo {
        glyph,
        mask,
        cluster,
        var0,
        var1,
        origin,
    }
}

pub fn put(ws: &mut [u32], i: usize, g: GlyphInfo)
    requires { i < length (glyphs ws.old) }
    ensures { glyphs ws.new ≡ slice_set (glyphs ws.old) i (seen g) }
{
    words::put_word(ws, GlyphWord::Glyph, i, g.glyph);
    words::put_word(ws, GlyphWord::Mask, i, g.mask);
    words::put_word(ws, GlyphWord::Cluster, i, g.cluster);
    words::put_word(ws, GlyphWord::Var0, i, g.var0);
    words::put_word(ws, GlyphWord::Var1, i, g.var1);
    words::put_word(ws, GlyphWord::Origin, i, g.origin);
}

// A glyph with a number and a cluster, and 0 elsewhere.
#[tactic(auto, unfolding(crate::specs::View::seen, crate::specs::View::glyph_of, crate::specs::Glyphs::blank))]
pub fn blank(number: u32, cluster: u32) -> GlyphInfo
    ensures { seen result ≡ record { glyph = number; info = blank cluster } }
{
    GlyphInfo {
        glyph: number,
        cluster,
        ..GlyphInfo::default()
    }
}

#[tactic(auto, unfolding(crate::specs::View::seen, crate::specs::View::glyph_of, crate::specs::Glyphs::change, crate::specs::Glyphs::with_origin))]
pub fn with_origin(g: GlyphInfo, origin: u32) -> GlyphInfo
    ensures { seen result ≡ change (with_origin origin) (seen g) }
{
    GlyphInfo { origin, ..g }
}

pub fn cluster_at(ws: &[u32], i: usize) -> u32
    requires { i < length (glyphs ws.now) }
    ensures { result ≡ slice_index_or (clusters (glyphs ws.now)) i 4294967295 }
{
    words::word_at(ws, GlyphWord::Cluster, i)
}

pub fn mask_at(ws: &[u32], i: usize) -> u32
    requires { i < length (glyphs ws.now) }
    ensures { result ≡ (get_or (glyphs ws.now) i zero_glyph).info.mask }
{
    words::word_at(ws, GlyphWord::Mask, i)
}

// One of the two variables of a glyph, under a mask.
pub fn key_at(ws: &[u32], i: usize, by: Key) -> u32
    requires { i < length (glyphs ws.now) }
    ensures { result ≡ key by.slot by.mask (get_or (glyphs ws.now) i zero_glyph).info }
{
    let var = if by.slot == 0 {
        GlyphWord::Var0
    } else {
        GlyphWord::Var1
    };
    by.mask & words::word_at(ws, var, i)
}

// The low three bits of the given mask are taken only where the cluster changes.
pub fn set_cluster(ws: &mut [u32], i: usize, cluster: u32, mask: u32)
    requires { i < length (glyphs ws.old) }
    ensures { glyphs ws.new ≡ slice_set (glyphs ws.old) i (change (set_cluster cluster mask) (slice_index_or (glyphs ws.old) i zero_glyph)) }
{
    if words::word_at(ws, GlyphWord::Cluster, i) != cluster {
        let old = words::word_at(ws, GlyphWord::Mask, i);
        words::put_word(ws, GlyphWord::Mask, i, old / 8 * 8 + mask % 8);
        words::put_word(ws, GlyphWord::Cluster, i, cluster);
    }
}

// Another cluster, and the mask as it was.
pub fn reset_cluster(ws: &mut [u32], i: usize, cluster: u32)
    requires { i < length (glyphs ws.old) }
    ensures { glyphs ws.new ≡ slice_set (glyphs ws.old) i (change (with_cluster cluster) (slice_index_or (glyphs ws.old) i zero_glyph)) }
{
    words::put_word(ws, GlyphWord::Cluster, i, cluster);
}

pub fn set_mask(ws: &mut [u32], i: usize, mask: u32)
    requires { i < length (glyphs ws.old) }
    ensures { glyphs ws.new ≡ slice_set (glyphs ws.old) i (change (with_mask mask) (slice_index_or (glyphs ws.old) i zero_glyph)) }
{
    words::put_word(ws, GlyphWord::Mask, i, mask);
}

pub fn or_mask(ws: &mut [u32], i: usize, bits: u32)
    requires { i < length (glyphs ws.old) }
    ensures { glyphs ws.new ≡ slice_set (glyphs ws.old) i (change (flagged bits) (slice_index_or (glyphs ws.old) i zero_glyph)) }
{
    let old = words::word_at(ws, GlyphWord::Mask, i);
    words::put_word(ws, GlyphWord::Mask, i, bits | old);
}

// Bits of the mask are set, unless the glyph has a cluster.
pub fn or_mask_unless(ws: &mut [u32], i: usize, cluster: u32, bits: u32)
    requires { i < length (glyphs ws.old) }
    ensures { glyphs ws.new ≡ slice_set (glyphs ws.old) i (change (flagged_unless cluster bits) (slice_index_or (glyphs ws.old) i zero_glyph)) }
{
    if cluster_at(ws, i) != cluster {
        or_mask(ws, i, bits);
    }
}

// The first n glyphs of a slice.
#[tactic(auto, using(crate::proofs::View::take_room, crate::proofs::View::take_glyphs, crate::proofs::View::take_whole, std::proofs::Common::rules))]
pub fn first_of(ws: &[u32], n: usize) -> &[u32]
    requires { n ≤ length (glyphs ws.now) }
    ensures { (glyphs result.now ≡ take n (glyphs ws.now)) × (Whole result.now) }
{
    let end = words::WORDS * n;
    &ws[..end]
}
