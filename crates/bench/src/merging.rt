// Loads that merge clusters: 11, 12.
use super::states::{each, finish, opened, tell, whole};
use edits::merges;
use lists::cursor;
use records::{DonePlace, InputPlace};

// Three glyphs of four.
#[unsafe(no_mangle)]
pub extern "C" fn bench_merge(
    first: &mut [u32],
    second: &mut [u32],
    n: usize,
    level: u32,
    out: &mut [u64],
) {
    let start = whole(n, n, level, 0);
    let b = each(start, first, second, n / 4, |b, f, s, k| {
        *b = merges::merge_clusters(*b, f, s, InputPlace(4 * k), InputPlace(4 * k + 3)).buffer;
    });
    tell(b, out);
}

#[unsafe(no_mangle)]
pub extern "C" fn bench_merge_out(
    first: &mut [u32],
    second: &mut [u32],
    n: usize,
    level: u32,
    out: &mut [u64],
) {
    let start = opened(n, level, first, second);
    let b = each(start, first, second, n / 4, |b, f, s, k| {
        *b = cursor::next_glyphs(*b, f, s, 4).buffer;
        *b = merges::merge_out_clusters(
            *b,
            f,
            s,
            DonePlace(4 * k + 1),
            DonePlace(4 * k + 3),
        ).buffer;
    });
    finish(b, first, second, out);
}

// Chains: each merge joins what the one before made.
#[unsafe(no_mangle)]
pub extern "C" fn bench_merge_back(
    first: &mut [u32],
    second: &mut [u32],
    n: usize,
    level: u32,
    out: &mut [u64],
) {
    let start = whole(n, n, level, 0);
    let b = each(start, first, second, n.saturating_sub(2), |b, f, s, k| {
        *b = merges::merge_clusters(*b, f, s, InputPlace(n - 2 - k), InputPlace(n - k)).buffer;
    });
    tell(b, out);
}

#[unsafe(no_mangle)]
pub extern "C" fn bench_merge_on(
    first: &mut [u32],
    second: &mut [u32],
    n: usize,
    level: u32,
    out: &mut [u64],
) {
    let start = whole(n, n, level, 0);
    let b = each(start, first, second, n.saturating_sub(2), |b, f, s, i| {
        *b = merges::merge_clusters(*b, f, s, InputPlace(i), InputPlace(i + 2)).buffer;
    });
    tell(b, out);
}

#[unsafe(no_mangle)]
pub extern "C" fn bench_merge_out_on(
    first: &mut [u32],
    second: &mut [u32],
    n: usize,
    level: u32,
    out: &mut [u64],
) {
    let o = opened(n, level, first, second);
    let start = cursor::next_glyph(o, first, second).buffer;
    let b = each(start, first, second, n.saturating_sub(2), |b, f, s, i| {
        *b = cursor::next_glyph(*b, f, s).buffer;
        *b = merges::merge_out_clusters(*b, f, s, DonePlace(i), DonePlace(i + 2)).buffer;
    });
    finish(b, first, second, out);
}
