// Masks of a range of glyphs: joined, and given.
ghost use Rattle.std.specs.Prelude.{◌≡◌, map, ◌≤◌, length};
ghost use Rattle.std.proofs.Math.Seq.{slice};
ghost use Rattle.records.specs.Glyphs.{Info, with_mask};
ghost use Rattle.records.specs.Ranges.{infos, edit};
ghost use Rattle.records.specs.View.{glyphs};
ghost use Rattle.lists.specs.inner.Masks.{joined_low};

// The low three bits of the masks of a range, joined.
#[tactic(auto, using(crate::proofs::Joining::joining))]
pub fn joined_masks(ws: &[u32], s: usize, e: usize) -> u32
    requires { (s ≤ e) × (e ≤ length (glyphs ws.now)) }
    ensures { result ≡ joined_low (slice s e (map (λ (i : Info). i.mask) (infos (glyphs ws.now)))) }
{
    let mut x: u32 = 0;
    for i in (s..e).rev() {
        x = (records::glyphs::mask_at(ws, i) % 8) | x;
    }
    x
}

// A range of glyphs gets a mask.
#[tactic(auto, using(crate::proofs::Editing::editing))]
pub fn fill_masks(ws: &mut [u32], s: usize, e: usize, mask: u32)
    requires { (s ≤ e) × (e ≤ length (glyphs ws.old)) }
    ensures { glyphs ws.new ≡ edit s e (with_mask mask) (glyphs ws.old) }
{
    for i in s..e {
        records::glyphs::set_mask(ws, i, mask);
    }
}
