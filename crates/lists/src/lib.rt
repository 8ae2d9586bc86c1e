// Lists of the shaping buffer: its state, the moves between the two lent slices, and the cursor's calls.

#![tactic(auto)]

use records::{Answer, DonePlace, GlyphInfo, InputPlace, Limits, Phase, Position, Refusal};

pub mod cursor;
pub mod items;
pub mod lent;

// Below the calls, for the crates above: functions that have a `requires`, or speak of a state and not of its account.
pub mod copies;
mod cursor_moves;
mod deciding;
pub mod fills;
pub mod groups;
pub mod keys;
pub mod masks;
mod moves;
pub mod ranges;
pub mod reversals;
pub mod rotation;
pub mod state;
pub mod swapping;
pub mod verdicts;

// The state of a buffer, beside the two slices that are lent to every call. specs/Contract.antt says which account it is.
// State and slices stay apart as parameters: a struct of two `&mut` slices does not prove, and callers lend them so.
// The fields stand so that no gap between them has three or more odd bytes: LLVM copies such a gap through memory.
#[derive(Clone, Copy)]
pub struct Buffer {
    pub idx: InputPlace,
    pub len: InputPlace,
    pub out_len: DonePlace,
    pub limits: Limits,
    // Three bits, as document 01 has them; a state that is lent may hold others.
    pub wants: u32,
    pub phase: Phase,
    // The second lent slice holds the run.
    pub swapped: bool,
    // The output lies in the slice that does not hold the run.
    pub have_separate_output: bool,
    // A number, and no enum: the state is lent and may be any word. One above 3 reads as 0: `state::read_level`.
    pub level: u32,
}

// Where the lists of a buffer lie: the cursor, the end of the input, the end of the output, and whether the output lies in the slice that
// does not hold the run. Its places are bare, as those of `Verdict`: acts go by places of either slice, and by sums of both kinds.
#[derive(Clone, Copy)]
pub struct Lists {
    pub idx: usize,
    pub len: usize,
    pub out_len: usize,
    pub separate: bool,
}

// What a call gives back.
#[derive(Clone, Copy)]
pub struct Reply {
    pub buffer: Buffer,
    pub answer: Answer,
}

// What an accepted call comes to, before a word is written: the places and limits that it leaves, which an act may amend, whether its output
// moves to the slice that does not hold the run, whether there is an act, and the value that it answers, but for `sync`, which answers 1
// where there is none.
#[derive(Clone, Copy)]
pub struct Verdict {
    pub idx: usize,
    pub len: usize,
    pub out_len: usize,
    pub limits: Limits,
    pub apart: bool,
    pub acts: bool,
    pub value: Option<u32>,
}

// What a call comes to: a verdict, or why it is turned back.
pub type Decision = Result<Verdict, Refusal>;

// One of the things that a buffer shows: a glyph of a list, or a position.
#[derive(Clone, Copy)]
pub enum Item {
    OfDone(GlyphInfo),
    OfPassed(GlyphInfo),
    OfRest(GlyphInfo),
    OfPosition(Position),
}
