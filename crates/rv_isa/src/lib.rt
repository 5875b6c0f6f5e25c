//! The instructions of the machine, RV32I and the M extension: their types, the table of their words, the
//! decoder and the encoder, and what their operations compute.
#![tactic(auto)]

ghost use Rattle.rv_isa.specs.Rows.{RowsAreApart};

mod arith;
mod decoder;
mod encoder;
mod fault;
mod fields;
mod instr;
mod regs;

pub use arith::{alu, taken};
pub use decoder::decode;
pub use encoder::encode;
pub use fault::Fault;
pub use instr::{AluOp, BranchOp, Instr, LoadOp, StoreOp};
pub use regs::Regs;

/// No word is two instructions.
pub fn rows_are_apart()
    ensures { RowsAreApart }
{}
