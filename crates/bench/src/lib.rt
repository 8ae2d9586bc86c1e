// Loads over the calls, for Rust to link and to measure: each a function, with the loop inside where a call is made many times.
// All but the byte commands take the same five parameters, and no struct of them: the driver passes them as C does. Each is an exported name,
// so two that differ in one call stay two.

#![tactic(auto)]

pub mod deleting;
pub mod filling;
pub mod flagging;
pub mod merging;
pub mod moving;
pub mod passing;
pub mod relabeling;
pub mod reordering;
pub mod replacing;
pub mod running;
pub mod states;
