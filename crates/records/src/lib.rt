// Records of the shaping buffer: the words of glyphs and positions, and the counters that no list shows.
// Nobody above this crate knows where a word lies.

#![tactic(auto)]

// Below the calls, for the crates above: functions that have a `requires`, or speak of words and counters and not of an account.
pub mod bytes;
pub mod counters;
pub mod glyphs;
pub mod operands;
pub mod positions;
pub mod refusals;
pub mod stored;
pub mod words;

// The phase of a buffer. In phase Output some of the input has become output.
#[derive(Clone, Copy, PartialEq, Eq)]
pub enum Phase {
    Plain,
    Output,
    Positions,
    Spoiled,
}

// A place in *done*, the output written so far.
#[derive(Clone, Copy)]
pub struct DonePlace(pub usize);

// A place in the input. It never stands for a place in *done*.
#[derive(Clone, Copy)]
pub struct InputPlace(pub usize);

// A glyph: six words.
#[derive(Clone, Copy, Default)]
pub struct GlyphInfo {
    pub glyph: u32,
    pub mask: u32,
    pub cluster: u32,
    pub var0: u32,
    pub var1: u32,
    // The number of the push that made it, or 0.
    pub origin: u32,
}

// A position: six words, the first four of them signed, the last free.
#[derive(Clone, Copy, Default)]
pub struct Position {
    pub x_advance: u32,
    pub y_advance: u32,
    pub x_offset: u32,
    pub y_offset: u32,
    pub var: u32,
    pub free: u32,
}

// Which bits of a glyph are its key: those of the mask, of var0 where the slot is 0, else of var1. The slot is document 01's operand, and a
// number, as the account's `key` takes it: calls refuse one above 1 before a key is read.
#[derive(Clone, Copy)]
pub struct Key {
    pub slot: u32,
    pub mask: u32,
}

// The counters that no list shows. max_ops is signed, and held as its word. The fields stand so that each gap between and behind them is one
// of 2 or 4 bytes: LLVM copies one of 6 through memory wherever a state is copied.
#[derive(Clone, Copy)]
pub struct Limits {
    pub allocated: usize,
    pub max_len: usize,
    pub max_ops: u32,
    pub serial: u8,
    pub successful: bool,
    // Pushes that stored a glyph since fresh; the count stops at the largest word.
    pub pushes: u32,
}

// Why a call is turned back, by the numbers of specs/Answers.antt.
#[derive(Clone, Copy, PartialEq, Eq)]
pub enum Refusal {
    Contradiction = 1,
    WrongPhase = 2,
    OutOfRange = 3,
    BadOperand = 4,
    OverCapacity = 5,
    Unreadable = 6,
}

// What a call answers: a value where it has one, or why it is turned back. A truth is the value 1 or 0.
pub type Answer = Result<Option<u32>, Refusal>;
