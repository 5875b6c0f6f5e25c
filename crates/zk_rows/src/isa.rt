//! Words of instructions, and what operations and comparisons compute.

use crate::lines::Lines;
use crate::stop::RowStop;
use crate::words::{hexadecimal, named};
use rv_isa::{AluOp, BranchOp, alu, decode, encode, taken};

static OPERATIONS: [(&str, AluOp); 18] = [
    ("add", AluOp::Add),
    ("sub", AluOp::Sub),
    ("sll", AluOp::Sll),
    ("slt", AluOp::Slt),
    ("sltu", AluOp::Sltu),
    ("xor", AluOp::Xor),
    ("srl", AluOp::Srl),
    ("sra", AluOp::Sra),
    ("or", AluOp::Or),
    ("and", AluOp::And),
    ("mul", AluOp::Mul),
    ("mulh", AluOp::Mulh),
    ("mulhsu", AluOp::Mulhsu),
    ("mulhu", AluOp::Mulhu),
    ("div", AluOp::Div),
    ("divu", AluOp::Divu),
    ("rem", AluOp::Rem),
    ("remu", AluOp::Remu),
];

static COMPARISONS: [(&str, BranchOp); 6] = [
    ("beq", BranchOp::Beq),
    ("bne", BranchOp::Bne),
    ("blt", BranchOp::Blt),
    ("bge", BranchOp::Bge),
    ("bltu", BranchOp::Bltu),
    ("bgeu", BranchOp::Bgeu),
];

/// Adds the instruction of a word and the word that encodes it, or that there is none.
pub(crate) fn decode_word(out: &mut Lines, words: &[&str]) -> Result<(), RowStop> {
    let [word] = words else {
        return Err(RowStop::NoRow);
    };
    match decode(hexadecimal(word)?) {
        Some(instr) => {
            let encoded = encode(&instr);
            out.add(format_args!("{instr:?} {encoded:08x}"))
        }
        None => out.add("none"),
    }
}

/// Adds what an operation makes of two words.
pub(crate) fn compute(out: &mut Lines, words: &[&str]) -> Result<(), RowStop> {
    let [name, a, b] = words else {
        return Err(RowStop::NoRow);
    };
    let op = named(&OPERATIONS, name)?;
    let value = alu(op, hexadecimal(a)?, hexadecimal(b)?);
    out.add(format_args!("{value:08x}"))
}

/// Adds whether a branch is taken at two words.
pub(crate) fn compare(out: &mut Lines, words: &[&str]) -> Result<(), RowStop> {
    let [name, a, b] = words else {
        return Err(RowStop::NoRow);
    };
    let op = named(&COMPARISONS, name)?;
    if taken(op, hexadecimal(a)?, hexadecimal(b)?) {
        out.add("taken")
    } else {
        out.add("not taken")
    }
}
