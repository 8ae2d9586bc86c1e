// Ranges of glyphs, or of positions, the other way round: the first is exchanged with the last, the next with the one before that, and so on,
// half as many exchanges as there are items.
ghost use Rattle.std.specs.Prelude.{◌≡◌, ◌<◌, ◌≤◌, length};
ghost use Rattle.records.specs.View.{glyphs};
ghost use Rattle.lists.specs.inner.Turned.{turned, exchange};

use records::GlyphInfo;
use records::stored::Stored;

#[tactic(auto, using(crate::proofs::Turns::exchanging))]
fn swap<T: Stored>(ws: &mut [u32], i: usize, j: usize)
    requires { (i < length (T.items ws.old)) × (j < length (T.items ws.old)) }
    ensures { T.items ws.new ≡ exchange T.blank i j (T.items ws.old) }
{
    let x = T::get(ws, i);
    let y = T::get(ws, j);
    y.put(ws, i);
    x.put(ws, j);
}

#[tactic(auto, using(crate::proofs::Turns::turning))]
pub fn reverse<T: Stored>(ws: &mut [u32], s: usize, e: usize)
    requires { (s ≤ e) × (e ≤ length (T.items ws.old)) }
    ensures { T.items ws.new ≡ turned s e (T.items ws.old) }
{
    for k in 0..(e - s) / 2 {
        swap::<T>(ws, s + k, e - 1 - k);
    }
}

// Of glyphs as they are seen, as the acts on them speak: `reverse` speaks of `GlyphInfo`s, `map stored (glyphs ws)`.
#[tactic(auto, using(crate::proofs::Storing::storing))]
pub fn reverse_glyphs(ws: &mut [u32], s: usize, e: usize)
    requires { (s ≤ e) × (e ≤ length (glyphs ws.old)) }
    ensures { glyphs ws.new ≡ turned s e (glyphs ws.old) }
{
    reverse::<GlyphInfo>(ws, s, e);
}
