//! Claims on a span of a run: its states, its exit, its journal and its assumptions, and their digests.
#![tactic(auto)]

mod claim;
mod digests;
mod state;

pub use claim::{Exit, SpanClaim};
pub use digests::{claim_digest, conditional_digest, ok_claim_digest, state_digest};
pub use state::State;
