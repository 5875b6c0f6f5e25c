//! The uncut run of a guest: one memory, one list of input words, no cuts, one thread; and the
//! trees of its memory, from one state to a later one.
#![tactic(auto)]

mod flat;
mod following;
mod memory;

pub use flat::Flat;
pub use following::following_tree;
