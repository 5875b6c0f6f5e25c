//! Digests of bytes: the digest functions, the digests of nodes and of tagged strings, and what a collision is.
#![tactic(auto)]

mod digest;
mod digester;
mod sha;
mod tags;
mod weak;

pub use digest::Digest;
pub use digester::{Digester, hash, node};
pub use sha::ShaDigester;
pub use tags::{tagged, tagged_list};
pub use weak::WeakDigester;
