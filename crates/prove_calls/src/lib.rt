//! The public calls that answer the words of `zk_prove`: they run guests uncut, prove their runs, and generate a guest and prove
//! its run.
#![tactic(auto)]

mod exec;
mod generate;
mod guest;
mod input;
mod others;
mod proof;
mod prove;
mod top;

pub use top::{exec_top, prove_top};
