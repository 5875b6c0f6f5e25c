//! The hash tree over a whole memory, in blocks that trees of one memory after the other share.
#![tactic(auto)]

mod block;
mod build;
mod digests;
mod low;
mod middle;
mod open;
mod runs;
mod steps;
mod top;
mod tree;
mod zeros;

ghost use Rattle.page_tree.specs.Laws.{NodeOfPages, PartOfPages};

use digest_core::Digester;
pub use steps::Steps;
pub use tree::PageTree;

/// A digest and a part tree rest on the pages below their node alone, so a stored page of zeros and one that
/// isn't stored are the same to them.
pub fn memory_laws<D: Digester>()
    ensures nodes { NodeOfPages D.digest_of }
    ensures parts { PartOfPages D.digest_of }
{}
