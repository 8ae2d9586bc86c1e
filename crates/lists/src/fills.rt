// Zeros in a range of a slice.
ghost use Rattle.std.specs.Prelude.{◌≡◌, ◌≤◌, length};
ghost use Rattle.records.specs.Glyphs.{blank};
ghost use Rattle.records.specs.View.{glyphs};
ghost use Rattle.lists.specs.inner.Filled.{filled};

use records::GlyphInfo;
use records::stored::Stored;

// What lies in a range becomes zero: glyphs, or positions.
#[tactic(auto, using(crate::proofs::Filling::filling))]
pub fn zero<T: Stored>(ws: &mut [u32], s: usize, e: usize)
    requires { (s ≤ e) × (e ≤ length (T.items ws.old)) }
    ensures { T.items ws.new ≡ filled T.blank s e (T.items ws.old) }
{
    for i in s..e {
        T::zero().put(ws, i);
    }
}

// Of glyphs as they are seen, as the acts on them speak: `zero` speaks of `GlyphInfo`s, `map stored (glyphs ws)`.
#[tactic(auto, using(crate::proofs::Storing::storing))]
pub fn zero_glyphs(ws: &mut [u32], s: usize, e: usize)
    requires { (s ≤ e) × (e ≤ length (glyphs ws.old)) }
    ensures { glyphs ws.new ≡ filled (record { glyph = 0; info = blank 0 }) s e (glyphs ws.old) }
{
    zero::<GlyphInfo>(ws, s, e);
}
