// What a lent slice holds, six words each: glyphs, or positions.
ghost use Rattle.std.specs.Prelude.{◌≡◌, ℕ, List, map, ◌<◌, length, slice_index_or, slice_set};
ghost use Rattle.records.specs.Glyphs.{zero_position};
ghost use Rattle.records.specs.View.{glyphs, positions_in, stored};
ghost use Rattle.records.specs.inner.Stores.{blank_info};

use super::{GlyphInfo, Position};

pub trait Stored: Copy {
    // a slice as a list of them, and the one whose words are all 0
    ghost items: { List ℕ → List Self };

    ghost blank: { Self };

    // `default`, of which `Default` itself promises nothing to a caller that does not know the type.
    fn zero() -> Self
        ensures { result ≡ blank };

    fn get(ws: &[u32], i: usize) -> Self
        requires { i < length (items ws.now) }
        ensures { result ≡ slice_index_or (items ws.now) i blank };

    fn put(self, ws: &mut [u32], i: usize)
        requires { i < length (items ws.old) }
        ensures { items ws.new ≡ slice_set (items ws.old) i self };
}

impl Stored for GlyphInfo {
    ghost items = { λ ws. map stored (glyphs ws) };

    ghost blank = { blank_info };

    #[tactic(auto, unfolding(crate::specs::inner::Stores::blank_info))]
    fn zero() -> GlyphInfo {
        GlyphInfo::default()
    }

    #[tactic(auto, using(crate::proofs::StoredLaws::storing))]
    fn get(ws: &[u32], i: usize) -> GlyphInfo {
        super::glyphs::get(ws, i)
    }

    #[tactic(auto, using(crate::proofs::StoredLaws::storing))]
    fn put(self, ws: &mut [u32], i: usize) {
        super::glyphs::put(ws, i, self)
    }
}

impl Stored for Position {
    ghost items = { positions_in };

    ghost blank = { zero_position };

    #[tactic(auto, unfolding(crate::specs::Glyphs::zero_position))]
    fn zero() -> Position {
        Position::default()
    }

    fn get(ws: &[u32], i: usize) -> Position {
        super::positions::get(ws, i)
    }

    fn put(self, ws: &mut [u32], i: usize) {
        super::positions::put(ws, i, self)
    }
}
