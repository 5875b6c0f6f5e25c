//! The replay of a seal over the pages that its tree opens: where it stops, and what it claims.
#![tactic(auto)]

mod claiming;
mod entering;
mod laws;
mod replaying;
mod stop;

pub use claiming::replay;
pub use laws::{replay_follows_run, unstopped_ends};
pub use stop::ReplayStop;
