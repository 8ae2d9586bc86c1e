// Loads that set break flags: 15, 18.
use super::states::{each, finish, opened, tell, whole};
use edits::flagging;
use lists::cursor;
use records::{DonePlace, InputPlace};

// Three glyphs of four.
#[unsafe(no_mangle)]
pub extern "C" fn bench_unsafe(
    first: &mut [u32],
    second: &mut [u32],
    n: usize,
    level: u32,
    out: &mut [u64],
) {
    let mut b = whole(n, n, level, 0);
    // tried with `each`: 6 instructions more a call, since the reply is cleared anew
    for k in 0..n / 4 {
        let (start, end) = (Some(InputPlace(4 * k)), Some(InputPlace(4 * k + 3)));
        b = flagging::unsafe_to_break(b, first, second, start, end).buffer;
    }
    tell(b, out);
}

// Each pair of neighbours, as kerning does.
#[unsafe(no_mangle)]
pub extern "C" fn bench_unsafe_pairs(
    first: &mut [u32],
    second: &mut [u32],
    n: usize,
    level: u32,
    out: &mut [u64],
) {
    let mut b = whole(n, n, level, 0);
    // tried with `each`: as above
    for i in 0..n.saturating_sub(1) {
        let (start, end) = (Some(InputPlace(i)), Some(InputPlace(i + 2)));
        b = flagging::unsafe_to_break(b, first, second, start, end).buffer;
    }
    tell(b, out);
}

#[unsafe(no_mangle)]
pub extern "C" fn bench_unsafe_out(
    first: &mut [u32],
    second: &mut [u32],
    n: usize,
    level: u32,
    out: &mut [u64],
) {
    let start = opened(n, level, first, second);
    let times = (n / 4).saturating_sub(1);
    let b = each(start, first, second, times, |b, f, s, k| {
        *b = cursor::next_glyphs(*b, f, s, 4).buffer;
        let (from, end) = (Some(DonePlace(4 * k + 2)), Some(InputPlace(4 * k + 6)));
        *b = flagging::unsafe_to_break_from_outbuffer(*b, f, s, from, end).buffer;
    });
    finish(b, first, second, out);
}
