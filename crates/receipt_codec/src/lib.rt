//! Receipts from their bytes and back: whole bundles, and the seals and part trees in them, which are read from the front
//! of a cursor's bytes. What keeps its limits has one spelling, no spelling begins another, and nothing else is read.
#![tactic(auto)]

mod bundle;
mod laws;
mod seal;
mod stop;
mod tree;
mod writer;

pub use bundle::read_bundle;
pub use laws::spelling_laws;
pub use seal::read_seal;
pub use stop::ReadStop;
pub use tree::read_tree;
pub use writer::{write_bundle, write_seal, write_tree};
