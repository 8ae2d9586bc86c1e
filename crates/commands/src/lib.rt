// Commands of the shaping buffer: the reader of bytes, the step and the run, and the printed lines and texts. The account of calls,
// lists of calls and bytes stands in specs/, with what demand 3 says of them.

#![tactic(auto)]

use lists::Reply;

mod calls;
mod columns;
mod counting;
pub mod lines;
pub mod playing;
pub mod reader;
pub mod reports;
pub mod runs;
pub mod scripts;
pub mod steps;
pub mod texts;
mod writer;

// A command as it was read: its byte, its first five operands (0 where it has fewer; each by a name, as specs/Reading has them),
// where glyph numbers of its own start, and where the next command does.
#[derive(Clone, Copy)]
pub struct Order {
    pub byte: u8,
    pub a: u32,
    pub b: u32,
    pub c: u32,
    pub d: u32,
    pub e: u32,
    pub numbers: usize,
    pub next: usize,
}

// What was read, if it can be read, and the place after it.
#[derive(Clone, Copy)]
pub struct Taken {
    pub reading: Option<Order>,
    pub next: usize,
}

// A byte string and a place in it. A copy reads at the same place again; what looks without going on is given one.
#[derive(Clone, Copy)]
pub struct Script<'a> {
    pub bytes: &'a [u8],
    pub place: usize,
}

// What follows a command byte: so many operands; or two, and as many glyph numbers as the second says.
#[derive(Clone, Copy)]
pub enum Operands {
    Words(usize),
    Listed,
}

// What a step gives back: the call's reply, and where the next command starts.
#[derive(Clone, Copy)]
pub struct Step {
    pub reply: Reply,
    pub next: usize,
}

// What a run gives back: the last command's reply, and how many commands there were.
#[derive(Clone, Copy)]
pub struct Ran {
    pub reply: Reply,
    pub commands: usize,
}

// What playing a part of a string gives back: the last command's reply, where the next command starts, how many bytes of
// lines were written, and how many commands there were.
#[derive(Clone, Copy)]
pub struct Played {
    pub reply: Reply,
    pub next: usize,
    pub written: usize,
    pub commands: usize,
}

// What a reader takes from the line of a glyph: its kind, which is the line's own first byte (`o`, `p` or `i`), as specs/Totals reads it,
// its cluster and its mask.
#[derive(Clone, Copy)]
pub struct Entry {
    pub kind: u8,
    pub cluster: u32,
    pub mask: u32,
}

// The numbers of the line `sum`: glyph lines, groups of equal cluster, glyph lines with mask bit 0.
#[derive(Clone, Copy, Default)]
pub struct Totals {
    pub lines: usize,
    pub groups: usize,
    pub marked: usize,
}
