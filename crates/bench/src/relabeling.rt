// Loads that change each glyph in its place: 1A, 1F, 22, 23.
use super::states::{tell, whole};
use edits::{grouping, propagating, relabeling};

#[unsafe(no_mangle)]
pub extern "C" fn bench_masks(
    first: &mut [u32],
    second: &mut [u32],
    n: usize,
    level: u32,
    out: &mut [u64],
) {
    let b = whole(n, n, level, 0);
    tell(
        relabeling::set_masks(b, first, second, 80, 240, 0, u32::MAX).buffer,
        out,
    );
}

#[unsafe(no_mangle)]
pub extern "C" fn bench_masks_range(
    first: &mut [u32],
    second: &mut [u32],
    n: usize,
    level: u32,
    out: &mut [u64],
) {
    let b = whole(n, n, level, 0);
    tell(
        relabeling::set_masks(b, first, second, 80, 240, 40, (n / 2 % 4294967296) as u32).buffer,
        out,
    );
}

#[unsafe(no_mangle)]
pub extern "C" fn bench_reset_clusters(
    first: &mut [u32],
    second: &mut [u32],
    n: usize,
    level: u32,
    out: &mut [u64],
) {
    let b = whole(n, n, level, 0);
    tell(relabeling::reset_clusters(b, first, second).buffer, out);
}

#[unsafe(no_mangle)]
pub extern "C" fn bench_form_clusters(
    first: &mut [u32],
    second: &mut [u32],
    n: usize,
    level: u32,
    out: &mut [u64],
) {
    let b = whole(n, n, level, 0);
    tell(
        grouping::form_clusters(b, first, second, 0, 128).buffer,
        out,
    );
}

#[unsafe(no_mangle)]
pub extern "C" fn bench_propagate(
    first: &mut [u32],
    second: &mut [u32],
    n: usize,
    level: u32,
    out: &mut [u64],
) {
    let b = whole(n, n, level, 0);
    tell(propagating::propagate_flags(b, first, second).buffer, out);
}

#[unsafe(no_mangle)]
pub extern "C" fn bench_propagate_tatweel(
    first: &mut [u32],
    second: &mut [u32],
    n: usize,
    level: u32,
    out: &mut [u64],
) {
    let b = whole(n, n, level, 3);
    tell(propagating::propagate_flags(b, first, second).buffer, out);
}
