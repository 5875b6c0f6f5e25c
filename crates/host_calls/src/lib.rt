//! The host calls of a guest: their numbers, arguments, ranges and costs; the footprint of a step; and
//! the meter of a segment.
#![tactic(auto)]

mod call;
mod foot;
mod meter;
mod reading;

pub use call::{AssumeCall, Call, CallList};
pub use foot::Foot;
pub use meter::Meter;
pub use reading::{cost, read_call};
