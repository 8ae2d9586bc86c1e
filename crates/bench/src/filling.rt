// Loads that fill: 01, 02, 05, 06.
use super::states::{each, placed, tell, whole};
use edits::filling;
use records::InputPlace;

#[unsafe(no_mangle)]
pub extern "C" fn bench_push(
    first: &mut [u32],
    second: &mut [u32],
    n: usize,
    level: u32,
    out: &mut [u64],
) {
    let start = whole(0, 0, level, 0);
    let b = each(start, first, second, n, |b, f, s, i| {
        *b = filling::push(*b, f, s, 7 + (i % 256) as u32, (i % 4294967296) as u32).buffer;
    });
    tell(b, out);
}

#[unsafe(no_mangle)]
pub extern "C" fn bench_set_length(
    first: &mut [u32],
    second: &mut [u32],
    n: usize,
    level: u32,
    out: &mut [u64],
) {
    let b = whole(0, n, level, 0);
    tell(filling::set_length(b, first, second, n).buffer, out);
}

#[unsafe(no_mangle)]
pub extern "C" fn bench_clear_positions(
    first: &mut [u32],
    second: &mut [u32],
    n: usize,
    level: u32,
    out: &mut [u64],
) {
    tell(placed(n, level, first, second), out);
}

#[unsafe(no_mangle)]
pub extern "C" fn bench_place(
    first: &mut [u32],
    second: &mut [u32],
    n: usize,
    level: u32,
    out: &mut [u64],
) {
    let start = placed(n, level, first, second);
    let b = each(start, first, second, n, |b, f, s, i| {
        *b = filling::place(*b, f, s, InputPlace(i), 500 + (i % 64) as u32, 0, 3, 4).buffer;
    });
    tell(b, out);
}
