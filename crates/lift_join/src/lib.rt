//! Claims that follow one another: their join, the chain of a list of seals, and that joins may be made in any order.
#![tactic(auto)]

mod appending;
mod joined;
mod laws;

pub use appending::append;
pub use joined::{Joined, join, lift};
pub use laws::chains_join;
