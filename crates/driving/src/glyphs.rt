// Glyphs put into a slice, whatever its length.
ghost use Rattle.std.specs.Prelude.{◌≡◌, map, slice_set};
ghost use Rattle.records.specs.View.{glyphs, seen};
ghost use Rattle.driving.specs.Glyphs.{laid};

use records::{GlyphInfo, glyphs};

// Puts a glyph at a place, if the slice has it.
#[tactic(auto, using(crate::proofs::Slices::in_slice))]
fn put_at(ws: &mut [u32], i: usize, g: GlyphInfo)
    ensures { glyphs ws.new ≡ slice_set (glyphs ws.old) i (seen g) }
{
    if i < glyphs::capacity(ws) {
        glyphs::put(ws, i, g);
    }
}

// Puts glyphs at the places from 0 on, as far as the slice has them.
pub fn fill(ws: &mut [u32], gs: &[GlyphInfo])
    ensures { glyphs ws.new ≡ laid 0 (map seen gs.now) (glyphs ws.old) }
{
    for (i, g) in gs.iter().enumerate() {
        put_at(ws, i, *g);
    }
}
