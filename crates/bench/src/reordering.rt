// Loads that turn and sort: 1B to 1E, 20.
use super::states::{each, placed, tell, whole};
use edits::{reversing, sorting};
use records::InputPlace;

#[unsafe(no_mangle)]
pub extern "C" fn bench_reverse(
    first: &mut [u32],
    second: &mut [u32],
    n: usize,
    level: u32,
    out: &mut [u64],
) {
    let b = whole(n, n, level, 0);
    tell(reversing::reverse(b, first, second).buffer, out);
}

// With positions, as a run from right to left is at the end of shaping.
#[unsafe(no_mangle)]
pub extern "C" fn bench_reverse_placed(
    first: &mut [u32],
    second: &mut [u32],
    n: usize,
    level: u32,
    out: &mut [u64],
) {
    let b = placed(n, level, first, second);
    tell(reversing::reverse(b, first, second).buffer, out);
}

// Five glyphs of eight.
#[unsafe(no_mangle)]
pub extern "C" fn bench_reverse_ranges(
    first: &mut [u32],
    second: &mut [u32],
    n: usize,
    level: u32,
    out: &mut [u64],
) {
    let start = whole(n, n, level, 0);
    let b = each(start, first, second, n / 8, |b, f, s, k| {
        *b = reversing::reverse_range(*b, f, s, InputPlace(8 * k), InputPlace(8 * k + 5)).buffer;
    });
    tell(b, out);
}

#[unsafe(no_mangle)]
pub extern "C" fn bench_reverse_graphemes(
    first: &mut [u32],
    second: &mut [u32],
    n: usize,
    level: u32,
    out: &mut [u64],
) {
    let b = whole(n, n, level, 0);
    tell(
        reversing::reverse_graphemes(b, first, second, 0, 128).buffer,
        out,
    );
}

#[unsafe(no_mangle)]
pub extern "C" fn bench_reverse_clusters(
    first: &mut [u32],
    second: &mut [u32],
    n: usize,
    level: u32,
    out: &mut [u64],
) {
    let b = whole(n, n, level, 0);
    tell(reversing::reverse_clusters(b, first, second).buffer, out);
}

// Each fourth glyph is a base, with three marks behind it.
#[unsafe(no_mangle)]
pub extern "C" fn bench_sort_marks(
    first: &mut [u32],
    second: &mut [u32],
    n: usize,
    level: u32,
    out: &mut [u64],
) {
    let start = whole(n, n, level, 0);
    let b = each(start, first, second, n / 4, |b, f, s, k| {
        *b = sorting::sort(
            *b,
            f,
            s,
            InputPlace(4 * k + 1),
            InputPlace(4 * k + 4),
            1,
            255,
        )
        .buffer;
    });
    tell(b, out);
}

// The keys fall from glyph to glyph.
#[unsafe(no_mangle)]
pub extern "C" fn bench_sort_reversed(
    first: &mut [u32],
    second: &mut [u32],
    n: usize,
    level: u32,
    out: &mut [u64],
) {
    let b = whole(n, n, level, 0);
    tell(
        sorting::sort(b, first, second, InputPlace(0), InputPlace(n), 1, u32::MAX).buffer,
        out,
    );
}
