// Loads that move the cursor: 10.
use super::states::{each, finish, opened, opened_apart};
use edits::writing;
use lists::{Buffer, cursor};

// Sixteen on and four back; then twenty on and four back, each time.
fn move_about(mut b: Buffer, first: &mut [u32], second: &mut [u32], n: usize) -> Buffer {
    // tried with `each`: up to 7 instructions more a round
    for k in 1..n / 16 {
        b = cursor::move_to(b, first, second, 16 * k).buffer;
        b = cursor::move_to(b, first, second, 16 * k - 4).buffer;
    }
    b
}

// Output in the run, at the same place: nothing is copied.
#[unsafe(no_mangle)]
pub extern "C" fn bench_move(
    first: &mut [u32],
    second: &mut [u32],
    n: usize,
    level: u32,
    out: &mut [u64],
) {
    let b = opened(n, level, first, second);
    finish(move_about(b, first, second, n), first, second, out);
}

#[unsafe(no_mangle)]
pub extern "C" fn bench_move_apart(
    first: &mut [u32],
    second: &mut [u32],
    n: usize,
    level: u32,
    out: &mut [u64],
) {
    let b = opened_apart(n, level, first, second);
    finish(move_about(b, first, second, n), first, second, out);
}

// From one end to the other and back.
#[unsafe(no_mangle)]
pub extern "C" fn bench_move_far(
    first: &mut [u32],
    second: &mut [u32],
    n: usize,
    level: u32,
    out: &mut [u64],
) {
    let b = opened_apart(n, level, first, second);
    let there = cursor::move_to(b, first, second, n).buffer;
    let back = cursor::move_to(there, first, second, 1).buffer;
    finish(back, first, second, out);
}

// A glyph is written and taken back, each time. The output stands at the start of the slice, so the input moves up by one place to make room.
#[unsafe(no_mangle)]
pub extern "C" fn bench_move_over(
    first: &mut [u32],
    second: &mut [u32],
    n: usize,
    level: u32,
    out: &mut [u64],
) {
    let start = opened(n, level, first, second);
    let b = each(start, first, second, 16, |b, f, s, _| {
        *b = writing::output_glyph(*b, f, s, 5).buffer;
        *b = cursor::move_to(*b, f, s, 0).buffer;
    });
    finish(b, first, second, out);
}
