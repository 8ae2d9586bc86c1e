// Edits of the shaping buffer. The account of writing, merging, deleting, flags and the whole run stands in specs/.

#![tactic(auto)]

use records::{Key, Limits};

mod bounds;
pub mod deleting;
pub mod deleting_inplace;
pub mod filling;
mod flag_table;
pub mod flagging;
mod flags;
pub mod grouping;
mod groups;
pub mod lent;
mod marking;
mod merge_acts;
mod merge_verdicts;
pub mod merges;
mod merging;
mod numbers;
pub mod propagating;
mod puts;
pub mod relabeling;
mod replace_acts;
pub mod replacing;
pub mod reversing;
pub mod sorting;
mod ways;
mod whole;
pub mod writing;

// What a merge changes: the lowest cluster, the range as it grew, and, where glyphs of the other list go along, the cluster that they have: the equal tail of the
// output with a range of the input, the equal head of the input with one of the output.
#[derive(Clone, Copy)]
pub(crate) struct Plan {
    pub lowest: u32,
    pub from: usize,
    pub to: usize,
    pub along: Option<u32>,
}

// Whether a range merges, and else by which level and wants its flags are sought. No enum: four acts
// ask for `way.merges ≡ clusters_merge (read_level way.level)`, so that the level is named where it merges too. That is no invariant of the type:
// merges of graphemes go by other levels than merges of clusters.
#[derive(Clone, Copy)]
pub(crate) struct Way {
    pub merges: bool,
    pub level: u32,
    pub wants: u32,
}

// What calls 1E and 20 to 22 go by: how ranges merge, how many glyphs the run has, and the key. What is left of the limits
// goes beside it, since that changes from step to step.
#[derive(Clone, Copy)]
pub(crate) struct Keyed {
    pub way: Way,
    pub len: usize,
    pub key: Key,
}

// What a deletion in place leaves: how many glyphs, and what of the limits.
#[derive(Clone, Copy)]
pub(crate) struct Kept {
    pub len: usize,
    pub limits: Limits,
}
