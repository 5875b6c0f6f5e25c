//! Tests of what no row of `zk_rows` reaches: lists with spare room, and files and output of the system. A crate with tests
//! is proved twice, so they stand here, above the crates that they call, and no other crate has any.
#![tactic(auto)]

#[cfg(test)]
mod lists;
#[cfg(test)]
mod system;
