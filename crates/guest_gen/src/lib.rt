//! Guests that are assembled: the ELF file of a list of instructions, and a guest with its input words for a number and a size.
#![tactic(auto)]

mod assembling;
mod generator;
mod instructions;
mod line;

pub use assembling::assemble;
pub use generator::{SIZE_MAX, generate, generated_guest_is_valid};
pub use line::GuestLine;
