// The states that loads begin with, and what is told of those that they leave.
ghost use Rattle.std.specs.Prelude.{ℕ, ◌<◌};

use edits::writing;
use lists::{Buffer, cursor, state};
use records::{InputPlace, Limits};

// A whole run of n glyphs, in the first slice. As driving `start`, and with wants; driving needs `io`, which a library for Rust to link lacks.
pub fn whole(n: usize, allocated: usize, level: u32, wants: u32) -> Buffer {
    let fresh = state::fresh_buffer(level, wants);
    Buffer {
        len: InputPlace(n),
        limits: Limits {
            allocated,
            ..fresh.limits
        },
        ..fresh
    }
}

// The same, with output: in the run, at the same place, until something else is written.
pub fn opened(n: usize, level: u32, first: &[u32], second: &[u32]) -> Buffer {
    cursor::clear_output(whole(n, n, level, 0), first, second).buffer
}

// Output in the run, one place behind.
pub fn opened_shifted(n: usize, level: u32, first: &[u32], second: &[u32]) -> Buffer {
    cursor::skip_glyph(opened(n, level, first, second), first, second).buffer
}

// Output in the other slice, one glyph ahead.
pub fn opened_apart(n: usize, level: u32, first: &mut [u32], second: &mut [u32]) -> Buffer {
    let b = cursor::clear_output(whole(n, n.saturating_add(1), level, 0), first, second).buffer;
    writing::output_glyph(b, first, second, 5).buffer
}

// A whole run with positions, all zero.
pub fn placed(n: usize, level: u32, first: &mut [u32], second: &mut [u32]) -> Buffer {
    cursor::clear_positions(whole(n, n, level, 0), first, second).buffer
}

// A load: its step at each number below n, in order. A step changes the state and the slices that it is lent.
pub(crate) fn each<F: Fn(&mut Buffer, &mut [u32], &mut [u32], usize)>(
    mut b: Buffer,
    first: &mut [u32],
    second: &mut [u32],
    n: usize,
    step: F,
) -> Buffer
    requires { (b : _) (f : _) (s : _) (i : ℕ) → i < n → F.pre step b f s i }
{
    for i in 0..n {
        step(&mut b, first, second, i);
    }
    b
}

// What a state is, in eight numbers; what there is no room for is not told. A phase's number is its place in the enum.
pub fn tell(b: Buffer, out: &mut [u64]) {
    let told = [
        b.idx.0 as u64,
        b.len.0 as u64,
        b.out_len.0 as u64,
        b.phase as u64,
        b.limits.max_ops as u64,
        b.limits.successful as u64,
        b.swapped as u64,
        b.have_separate_output as u64,
    ];
    // Each by itself: a loop over both would be a call of memcpy, which the library would then need from outside.
    for (i, value) in told.iter().enumerate() {
        if let Some(place) = out.get_mut(i) {
            *place = *value;
        }
    }
}

// The rest goes to the output, and the output is the run.
pub fn finish(b: Buffer, first: &mut [u32], second: &mut [u32], out: &mut [u64]) {
    tell(cursor::sync(b, first, second).buffer, out);
}
