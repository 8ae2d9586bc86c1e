// Loads that write output: 0B, 0D, 0E.
use super::states::{each, finish, opened, opened_apart};
use edits::{replacing, writing};
use lists::{Buffer, cursor};

// The number of a glyph that is written.
fn number(i: usize) -> u32 {
    900 + (i % 64) as u32
}

fn replace(start: Buffer, first: &mut [u32], second: &mut [u32], n: usize) -> Buffer {
    each(start, first, second, n, |b, f, s, i| {
        *b = replacing::replace_glyph(*b, f, s, number(i)).buffer;
    })
}

#[unsafe(no_mangle)]
pub extern "C" fn bench_replace(
    first: &mut [u32],
    second: &mut [u32],
    n: usize,
    level: u32,
    out: &mut [u64],
) {
    let b = opened(n, level, first, second);
    finish(replace(b, first, second, n), first, second, out);
}

#[unsafe(no_mangle)]
pub extern "C" fn bench_replace_apart(
    first: &mut [u32],
    second: &mut [u32],
    n: usize,
    level: u32,
    out: &mut [u64],
) {
    let b = opened_apart(n, level, first, second);
    finish(replace(b, first, second, n), first, second, out);
}

// One glyph in eight is replaced; the others go on.
#[unsafe(no_mangle)]
pub extern "C" fn bench_replace_some(
    first: &mut [u32],
    second: &mut [u32],
    n: usize,
    level: u32,
    out: &mut [u64],
) {
    let start = opened(n, level, first, second);
    let b = each(start, first, second, n, |b, f, s, i| {
        if i % 8 == 3 {
            *b = replacing::replace_glyph(*b, f, s, 900).buffer;
        } else {
            *b = cursor::next_glyph(*b, f, s).buffer;
        }
    });
    finish(b, first, second, out);
}

// Two glyphs become one.
#[unsafe(no_mangle)]
pub extern "C" fn bench_ligatures(
    first: &mut [u32],
    second: &mut [u32],
    n: usize,
    level: u32,
    out: &mut [u64],
) {
    let start = opened(n, level, first, second);
    let b = each(start, first, second, n / 2, |b, f, s, i| {
        *b = replacing::replace_glyphs(*b, f, s, 2, 1, &[number(i)]).buffer;
    });
    finish(b, first, second, out);
}

// One glyph becomes two.
#[unsafe(no_mangle)]
pub extern "C" fn bench_multiple(
    first: &mut [u32],
    second: &mut [u32],
    n: usize,
    level: u32,
    out: &mut [u64],
) {
    let start = opened(n, level, first, second);
    let b = each(start, first, second, n, |b, f, s, i| {
        *b = replacing::replace_glyphs(*b, f, s, 1, 2, &[number(i), 7]).buffer;
    });
    finish(b, first, second, out);
}

#[unsafe(no_mangle)]
pub extern "C" fn bench_output(
    first: &mut [u32],
    second: &mut [u32],
    n: usize,
    level: u32,
    out: &mut [u64],
) {
    let start = opened(n, level, first, second);
    let b = each(start, first, second, n, |b, f, s, i| {
        *b = writing::output_glyph(*b, f, s, number(i)).buffer;
        *b = cursor::next_glyph(*b, f, s).buffer;
    });
    finish(b, first, second, out);
}
