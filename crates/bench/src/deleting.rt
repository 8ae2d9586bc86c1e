// Loads that delete: 0F, 21.
use super::states::{each, finish, opened, placed, tell, whole};
use edits::{deleting, deleting_inplace};
use lists::cursor;

// One glyph of four goes; the others go on.
#[unsafe(no_mangle)]
pub extern "C" fn bench_delete(
    first: &mut [u32],
    second: &mut [u32],
    n: usize,
    level: u32,
    out: &mut [u64],
) {
    let start = opened(n, level, first, second);
    let b = each(start, first, second, n, |b, f, s, i| {
        if i % 4 == 2 {
            *b = deleting::delete_glyph(*b, f, s).buffer;
        } else {
            *b = cursor::next_glyph(*b, f, s).buffer;
        }
    });
    finish(b, first, second, out);
}

// Clusters fall from glyph to glyph: each deletion gives its cluster to what is done.
#[unsafe(no_mangle)]
pub extern "C" fn bench_delete_falling(
    first: &mut [u32],
    second: &mut [u32],
    n: usize,
    level: u32,
    out: &mut [u64],
) {
    let o = opened(n, level, first, second);
    let start = cursor::next_glyphs(o, first, second, n / 2).buffer;
    let b = each(start, first, second, n - n / 2, |b, f, s, _| {
        *b = deleting::delete_glyph(*b, f, s).buffer;
    });
    finish(b, first, second, out);
}

// Glyphs whose var0 has bit 8.
#[unsafe(no_mangle)]
pub extern "C" fn bench_delete_inplace(
    first: &mut [u32],
    second: &mut [u32],
    n: usize,
    level: u32,
    out: &mut [u64],
) {
    let b = whole(n, n, level, 0);
    tell(
        deleting_inplace::delete_glyphs_inplace(b, first, second, 0, 256, 256).buffer,
        out,
    );
}

#[unsafe(no_mangle)]
pub extern "C" fn bench_delete_inplace_placed(
    first: &mut [u32],
    second: &mut [u32],
    n: usize,
    level: u32,
    out: &mut [u64],
) {
    let b = placed(n, level, first, second);
    tell(
        deleting_inplace::delete_glyphs_inplace(b, first, second, 0, 256, 256).buffer,
        out,
    );
}
