// Copies of a range of glyphs. A copy is a place, another and a count: its two ranges are equally long, and two ranges would have to be said so.
ghost use Rattle.std.specs.Prelude.{◌≡◌, ◌+◌, ◌≤◌, length};
ghost use Rattle.records.specs.View.{glyphs};
ghost use Rattle.lists.specs.inner.Copied.{copied};

// From one slice to another.
#[tactic(auto, using(crate::proofs::Copying::copying))]
pub fn copy_across(src: &[u32], dst: &mut [u32], from: usize, to: usize, n: usize)
    requires { (from + n ≤ length (glyphs src.now)) × (to + n ≤ length (glyphs dst.old)) }
    ensures { glyphs dst.new ≡ copied (glyphs dst.old) to (glyphs src.now) from n }
{
    for i in 0..n {
        let g = records::glyphs::get(src, from + i);
        records::glyphs::put(dst, to + i, g);
    }
}

// Towards the front, from the first on. Not one function with `copy_across`: a slice is lent once.
#[tactic(auto, using(crate::proofs::Copying::copying))]
fn copy_down(ws: &mut [u32], from: usize, to: usize, n: usize)
    requires { (to ≤ from) × (from + n ≤ length (glyphs ws.old)) }
    ensures { glyphs ws.new ≡ copied (glyphs ws.old) to (glyphs ws.old) from n }
{
    for i in 0..n {
        let g = records::glyphs::get(ws, from + i);
        records::glyphs::put(ws, to + i, g);
    }
}

// Towards the end, from the last on.
#[tactic(auto, using(crate::proofs::Copying::copying))]
fn copy_up(ws: &mut [u32], from: usize, to: usize, n: usize)
    requires { (from ≤ to) × (to + n ≤ length (glyphs ws.old)) }
    ensures { glyphs ws.new ≡ copied (glyphs ws.old) to (glyphs ws.old) from n }
{
    for i in (0..n).rev() {
        let g = records::glyphs::get(ws, from + i);
        records::glyphs::put(ws, to + i, g);
    }
}

// Within one slice, whether the ranges overlap or not. Where they are the same, nothing is written.
#[tactic(auto, using(crate::proofs::Carrying::copied_none))]
pub(crate) fn copy_within(ws: &mut [u32], from: usize, to: usize, n: usize)
    requires { (from + n ≤ length (glyphs ws.old)) × (to + n ≤ length (glyphs ws.old)) }
    ensures { glyphs ws.new ≡ copied (glyphs ws.old) to (glyphs ws.old) from n }
{
    if to < from {
        copy_down(ws, from, to, n);
    } else if from < to {
        copy_up(ws, from, to, n);
    }
}
