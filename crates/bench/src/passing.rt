// Loads that go through a run: 04, 07, 08, 09.
use super::states::{each, finish, opened, opened_apart, opened_shifted, tell, whole};
use lists::{Buffer, cursor};

fn pass(start: Buffer, first: &mut [u32], second: &mut [u32], n: usize) -> Buffer {
    each(start, first, second, n, |b, f, s, _| {
        *b = cursor::next_glyph(*b, f, s).buffer;
    })
}

fn pass_blocks(start: Buffer, first: &mut [u32], second: &mut [u32], n: usize) -> Buffer {
    each(start, first, second, n, |b, f, s, _| {
        *b = cursor::next_glyphs(*b, f, s, 16).buffer;
    })
}

// Output in the run: nothing is copied.
#[unsafe(no_mangle)]
pub extern "C" fn bench_pass(
    first: &mut [u32],
    second: &mut [u32],
    n: usize,
    level: u32,
    out: &mut [u64],
) {
    let b = opened(n, level, first, second);
    finish(pass(b, first, second, n), first, second, out);
}

// One place behind: each glyph is copied.
#[unsafe(no_mangle)]
pub extern "C" fn bench_pass_shifted(
    first: &mut [u32],
    second: &mut [u32],
    n: usize,
    level: u32,
    out: &mut [u64],
) {
    let b = opened_shifted(n, level, first, second);
    finish(
        pass(b, first, second, n.saturating_sub(1)),
        first,
        second,
        out,
    );
}

// In the other slice: each glyph is copied across.
#[unsafe(no_mangle)]
pub extern "C" fn bench_pass_apart(
    first: &mut [u32],
    second: &mut [u32],
    n: usize,
    level: u32,
    out: &mut [u64],
) {
    let b = opened_apart(n, level, first, second);
    finish(pass(b, first, second, n), first, second, out);
}

#[unsafe(no_mangle)]
pub extern "C" fn bench_blocks(
    first: &mut [u32],
    second: &mut [u32],
    n: usize,
    level: u32,
    out: &mut [u64],
) {
    let b = opened(n, level, first, second);
    finish(pass_blocks(b, first, second, n / 16), first, second, out);
}

#[unsafe(no_mangle)]
pub extern "C" fn bench_blocks_shifted(
    first: &mut [u32],
    second: &mut [u32],
    n: usize,
    level: u32,
    out: &mut [u64],
) {
    let b = opened_shifted(n, level, first, second);
    finish(
        pass_blocks(b, first, second, (n / 16).saturating_sub(1)),
        first,
        second,
        out,
    );
}

#[unsafe(no_mangle)]
pub extern "C" fn bench_blocks_apart(
    first: &mut [u32],
    second: &mut [u32],
    n: usize,
    level: u32,
    out: &mut [u64],
) {
    let b = opened_apart(n, level, first, second);
    finish(pass_blocks(b, first, second, n / 16), first, second, out);
}

// All by one call.
#[unsafe(no_mangle)]
pub extern "C" fn bench_rest_shifted(
    first: &mut [u32],
    second: &mut [u32],
    n: usize,
    level: u32,
    out: &mut [u64],
) {
    let b = opened_shifted(n, level, first, second);
    finish(b, first, second, out);
}

#[unsafe(no_mangle)]
pub extern "C" fn bench_rest_apart(
    first: &mut [u32],
    second: &mut [u32],
    n: usize,
    level: u32,
    out: &mut [u64],
) {
    let b = opened_apart(n, level, first, second);
    finish(b, first, second, out);
}

// The cheapest call: a state that goes in and out.
#[unsafe(no_mangle)]
pub extern "C" fn bench_skip(
    first: &mut [u32],
    second: &mut [u32],
    n: usize,
    level: u32,
    out: &mut [u64],
) {
    let start = whole(n, n, level, 0);
    let b = each(start, first, second, n, |b, f, s, _| {
        *b = cursor::skip_glyph(*b, f, s).buffer;
    });
    tell(b, out);
}
