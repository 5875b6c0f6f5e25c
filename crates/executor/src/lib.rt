//! The run of a guest cut into segments, each with the seal that a check replays.
#![tactic(auto)]

mod beginning;
mod cut;
mod executor;
mod laws;
mod limits;
mod segment_meter;

pub use cut::Cut;
pub use executor::{Executor, Next};
pub use laws::{cuts_keep_limits, segments_cover, stretches_replay};
pub use limits::{DEFAULT_CYCLES, DEFAULT_LIMIT, DEFAULT_PAGES, Limits};
