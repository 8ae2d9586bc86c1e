// What the programs that drive the calls share: the buffers that their runs begin with, answers, glyphs of a slice, and standard output.

#![tactic(auto)]

pub mod answers;
pub mod glyphs;
pub mod output;
pub mod starts;
