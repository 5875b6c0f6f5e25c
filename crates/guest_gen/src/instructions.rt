//! Lines of single instructions, with their operands in the order of an assembler's line.
ghost use Rattle.std.specs.Prelude.{◌≡◌, ◌<◌, ◌^◌};
ghost use Rattle.guest_gen.specs.Generator as spec;

use crate::line::GuestLine;
use rv_isa::{AluOp, BranchOp, Instr, LoadOp, StoreOp};

// `upper` is the immediate's high 20 bits.
pub(crate) fn lui(rd: u8, upper: u32) -> GuestLine
    requires { upper < 2 ^ 20 }
    ensures { result ≡ spec.lui rd upper }
{
    GuestLine::Instr(Instr::Lui {
        rd,
        imm: upper * 4096,
    })
}

pub(crate) fn addi(rd: u8, rs1: u8, imm: i32) -> GuestLine
    ensures { result ≡ spec.addi rd rs1 imm }
{
    GuestLine::Instr(Instr::AluImm {
        op: AluOp::Add,
        rd,
        rs1,
        imm,
    })
}

pub(crate) fn slli(rd: u8, rs1: u8, amount: i32) -> GuestLine
    ensures { result ≡ spec.slli rd rs1 amount }
{
    GuestLine::Instr(Instr::AluImm {
        op: AluOp::Sll,
        rd,
        rs1,
        imm: amount,
    })
}

pub(crate) fn srli(rd: u8, rs1: u8, amount: i32) -> GuestLine
    ensures { result ≡ spec.srli rd rs1 amount }
{
    GuestLine::Instr(Instr::AluImm {
        op: AluOp::Srl,
        rd,
        rs1,
        imm: amount,
    })
}

pub(crate) fn add(rd: u8, rs1: u8, rs2: u8) -> GuestLine
    ensures { result ≡ spec.add rd rs1 rs2 }
{
    GuestLine::Instr(Instr::Alu {
        op: AluOp::Add,
        rd,
        rs1,
        rs2,
    })
}

pub(crate) fn mul(rd: u8, rs1: u8, rs2: u8) -> GuestLine
    ensures { result ≡ spec.mul rd rs1 rs2 }
{
    GuestLine::Instr(Instr::Alu {
        op: AluOp::Mul,
        rd,
        rs1,
        rs2,
    })
}

pub(crate) fn lw(rd: u8, imm: i32, rs1: u8) -> GuestLine
    ensures { result ≡ spec.lw rd imm rs1 }
{
    GuestLine::Instr(Instr::Load {
        op: LoadOp::Lw,
        rd,
        rs1,
        imm,
    })
}

pub(crate) fn sw(rs2: u8, imm: i32, rs1: u8) -> GuestLine
    ensures { result ≡ spec.sw rs2 imm rs1 }
{
    GuestLine::Instr(Instr::Store {
        op: StoreOp::Sw,
        rs1,
        rs2,
        imm,
    })
}

pub(crate) fn bne(rs1: u8, rs2: u8, offset: i32) -> GuestLine
    ensures { result ≡ spec.bne rs1 rs2 offset }
{
    GuestLine::Instr(Instr::Branch {
        op: BranchOp::Bne,
        rs1,
        rs2,
        offset,
    })
}

pub(crate) fn ecall() -> GuestLine
    ensures { result ≡ spec.ecall }
{
    GuestLine::Instr(Instr::Ecall)
}
