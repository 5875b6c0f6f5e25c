//! Bundles whose entries answer each other's assumption calls: what is proved of a run, put together with other bundles.
#![tactic(auto)]

mod entries;
mod finding;
mod laws;
mod reporting;
mod resolving;
mod stop;

pub use laws::{resolved_is_accepted, resolved_keeps_limits};
pub use reporting::resolved_report;
pub use resolving::resolve;
pub use stop::ResolveStop;
