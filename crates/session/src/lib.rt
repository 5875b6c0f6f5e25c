//! A whole session: the run of a guest, cut into segments whose seals are replayed and joined.
#![tactic(auto)]

mod alone;
mod gate;
mod laws;
mod stop;

pub use alone::prove_alone;
pub use gate::{Gate, NoGate};
pub use laws::segments_chain;
pub use stop::SessionStop;
