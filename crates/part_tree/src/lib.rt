//! Hash trees over a memory's pages, in which some pages are open and the rest is pruned to digests.
#![tactic(auto)]

mod canonical;
mod laws;
mod sizes;
mod tree;

pub use laws::{part_laws, put_keeps_agreement, put_laws, split_laws};
pub use sizes::{HEIGHT, MOST_PAGES};
pub use tree::{PageList, PartTree};
