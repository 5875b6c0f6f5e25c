//! The words of instructions, one function a format.
ghost use Rattle.std.specs.Prelude.{◌≡◌, ◌^◌, ◌<◌, IsTrue};
ghost use Rattle.rv_isa.specs.Rows.{decode_of, bits, imm_i, imm_s, imm_b, imm_u, imm_j};
ghost use Rattle.rv_isa.specs.Classes.{branch_op_of, load_op_of, store_op_of, register_op_of};
ghost use Rattle.rv_isa.specs.Encoding.{in_signed, is_even, is_upper, takes_immediate, valid};

use crate::fields::field;
use crate::instr::{AluOp, BranchOp, Instr, LoadOp, StoreOp};

// From the highest bit: funct7, rs2, rs1, funct3, rd, opcode.
fn r_type(opcode: u32, funct3: u32, funct7: u32, rd: u8, rs1: u8, rs2: u8) -> u32
    requires opcode_in { opcode < 2 ^ 7 }
    requires funct3_in { funct3 < 2 ^ 3 }
    requires funct7_in { funct7 < 2 ^ 7 }
    requires rd_in { rd < 32 }
    requires rs1_in { rs1 < 32 }
    requires rs2_in { rs2 < 32 }
    ensures opcode { bits 0 7 result ≡ opcode }
    ensures rd { bits 7 5 result ≡ rd }
    ensures funct3 { bits 12 3 result ≡ funct3 }
    ensures rs1 { bits 15 5 result ≡ rs1 }
    ensures rs2 { bits 20 5 result ≡ rs2 }
    ensures funct7 { bits 25 7 result ≡ funct7 }
{
    opcode
        + (u32::from(rd) << 7)
        + (funct3 << 12)
        + (u32::from(rs1) << 15)
        + (u32::from(rs2) << 20)
        + (funct7 << 25)
}

// From the highest bit: imm[11:0], rs1, funct3, rd, opcode.
fn i_type(opcode: u32, funct3: u32, rd: u8, rs1: u8, imm: i32) -> u32
    requires opcode_in { opcode < 2 ^ 7 }
    requires funct3_in { funct3 < 2 ^ 3 }
    requires rd_in { rd < 32 }
    requires rs1_in { rs1 < 32 }
    requires imm_in { IsTrue (in_signed (2 ^ 11) imm) }
    ensures opcode { bits 0 7 result ≡ opcode }
    ensures rd { bits 7 5 result ≡ rd }
    ensures funct3 { bits 12 3 result ≡ funct3 }
    ensures rs1 { bits 15 5 result ≡ rs1 }
    ensures imm { imm_i result ≡ imm }
{
    let imm = imm.cast_unsigned();
    opcode
        + (u32::from(rd) << 7)
        + (funct3 << 12)
        + (u32::from(rs1) << 15)
        + (field(imm, 0, 12) << 20)
}

// From the highest bit: imm[11:5], rs2, rs1, funct3, imm[4:0], opcode.
fn s_type(opcode: u32, funct3: u32, rs1: u8, rs2: u8, imm: i32) -> u32
    requires opcode_in { opcode < 2 ^ 7 }
    requires funct3_in { funct3 < 2 ^ 3 }
    requires rs1_in { rs1 < 32 }
    requires rs2_in { rs2 < 32 }
    requires imm_in { IsTrue (in_signed (2 ^ 11) imm) }
    ensures opcode { bits 0 7 result ≡ opcode }
    ensures funct3 { bits 12 3 result ≡ funct3 }
    ensures rs1 { bits 15 5 result ≡ rs1 }
    ensures rs2 { bits 20 5 result ≡ rs2 }
    ensures imm { imm_s result ≡ imm }
{
    let imm = imm.cast_unsigned();
    opcode
        + (field(imm, 0, 5) << 7)
        + (funct3 << 12)
        + (u32::from(rs1) << 15)
        + (u32::from(rs2) << 20)
        + (field(imm, 5, 7) << 25)
}

// From the highest bit: imm[12], imm[10:5], rs2, rs1, funct3, imm[4:1], imm[11], opcode.
fn b_type(opcode: u32, funct3: u32, rs1: u8, rs2: u8, offset: i32) -> u32
    requires opcode_in { opcode < 2 ^ 7 }
    requires funct3_in { funct3 < 2 ^ 3 }
    requires rs1_in { rs1 < 32 }
    requires rs2_in { rs2 < 32 }
    requires offset_in { IsTrue (in_signed (2 ^ 12) offset) }
    requires offset_even { IsTrue (is_even offset) }
    ensures opcode { bits 0 7 result ≡ opcode }
    ensures funct3 { bits 12 3 result ≡ funct3 }
    ensures rs1 { bits 15 5 result ≡ rs1 }
    ensures rs2 { bits 20 5 result ≡ rs2 }
    ensures imm { imm_b result ≡ offset }
{
    let offset = offset.cast_unsigned();
    opcode
        + (field(offset, 11, 1) << 7)
        + (field(offset, 1, 4) << 8)
        + (funct3 << 12)
        + (u32::from(rs1) << 15)
        + (u32::from(rs2) << 20)
        + (field(offset, 5, 6) << 25)
        + (field(offset, 12, 1) << 31)
}

// From the highest bit: imm[31:12], rd, opcode.
fn u_type(opcode: u32, rd: u8, imm: u32) -> u32
    requires opcode_in { opcode < 2 ^ 7 }
    requires rd_in { rd < 32 }
    requires imm_in { IsTrue (is_upper imm) }
    ensures opcode { bits 0 7 result ≡ opcode }
    ensures rd { bits 7 5 result ≡ rd }
    ensures imm { imm_u result ≡ imm }
{
    opcode + (u32::from(rd) << 7) + imm
}

// From the highest bit: imm[20], imm[10:1], imm[11], imm[19:12], rd, opcode.
fn j_type(opcode: u32, rd: u8, offset: i32) -> u32
    requires opcode_in { opcode < 2 ^ 7 }
    requires rd_in { rd < 32 }
    requires offset_in { IsTrue (in_signed (2 ^ 20) offset) }
    requires offset_even { IsTrue (is_even offset) }
    ensures opcode { bits 0 7 result ≡ opcode }
    ensures rd { bits 7 5 result ≡ rd }
    ensures imm { imm_j result ≡ offset }
{
    let offset = offset.cast_unsigned();
    opcode
        + (u32::from(rd) << 7)
        + (field(offset, 12, 8) << 12)
        + (field(offset, 11, 1) << 20)
        + (field(offset, 1, 10) << 21)
        + (field(offset, 20, 1) << 31)
}

fn branch_funct3(op: BranchOp) -> u32
    ensures op { branch_op_of result ≡ Some op }
    ensures bound { result < 2 ^ 3 }
{
    match op {
        BranchOp::Beq => 0,
        BranchOp::Bne => 1,
        BranchOp::Blt => 4,
        BranchOp::Bge => 5,
        BranchOp::Bltu => 6,
        BranchOp::Bgeu => 7,
    }
}

fn load_funct3(op: LoadOp) -> u32
    ensures op { load_op_of result ≡ Some op }
    ensures bound { result < 2 ^ 3 }
{
    match op {
        LoadOp::Lb => 0,
        LoadOp::Lh => 1,
        LoadOp::Lw => 2,
        LoadOp::Lbu => 4,
        LoadOp::Lhu => 5,
    }
}

fn store_funct3(op: StoreOp) -> u32
    ensures op { store_op_of result ≡ Some op }
    ensures bound { result < 2 ^ 3 }
{
    match op {
        StoreOp::Sb => 0,
        StoreOp::Sh => 1,
        StoreOp::Sw => 2,
    }
}

// funct3 and funct7 of an operation on registers.
fn register_functs(op: AluOp) -> (u32, u32)
    ensures op { register_op_of result.1 result.0 ≡ Some op }
    ensures funct3_bound { result.0 < 2 ^ 3 }
    ensures funct7_bound { result.1 < 2 ^ 7 }
{
    match op {
        AluOp::Add => (0, 0),
        AluOp::Sub => (0, 32),
        AluOp::Sll => (1, 0),
        AluOp::Slt => (2, 0),
        AluOp::Sltu => (3, 0),
        AluOp::Xor => (4, 0),
        AluOp::Srl => (5, 0),
        AluOp::Sra => (5, 32),
        AluOp::Or => (6, 0),
        AluOp::And => (7, 0),
        AluOp::Mul => (0, 1),
        AluOp::Mulh => (1, 1),
        AluOp::Mulhsu => (2, 1),
        AluOp::Mulhu => (3, 1),
        AluOp::Div => (4, 1),
        AluOp::Divu => (5, 1),
        AluOp::Rem => (6, 1),
        AluOp::Remu => (7, 1),
    }
}

fn with_immediate(op: AluOp, rd: u8, rs1: u8, imm: i32) -> u32
    requires rd_in { rd < 32 }
    requires rs1_in { rs1 < 32 }
    requires imm_in { IsTrue (takes_immediate op imm) }
    ensures { decode_of result ≡ Some (Instr.AluImm op rd rs1 imm) }
{
    let (funct3, funct7) = register_functs(op);
    match op {
        AluOp::Sll | AluOp::Srl | AluOp::Sra => r_type(
            0b001_0011, funct3, funct7, rd, rs1, imm as u8,
        ),
        _ => i_type(0b001_0011, funct3, rd, rs1, imm),
    }
}

/// The word of a valid instruction (RISC-V Unprivileged ISA, RV32I 2.2 Base Instruction Formats and 2.3 Immediate
/// Encoding Variants). In that of `Fence` every field but the opcode is zero. It takes no memory.
#[tactic(auto, using(crate::proofs::Encoding::encodings))]
pub fn encode(instr: &Instr) -> u32
    requires { IsTrue (valid instr.now) }
    ensures decodes { decode_of result ≡ Some instr.now }
    ensures fence { instr.now ≡ Instr.Fence → result ≡ 0x0000000F }
{
    match *instr {
        Instr::Lui { rd, imm } => u_type(0b011_0111, rd, imm),
        Instr::Auipc { rd, imm } => u_type(0b001_0111, rd, imm),
        Instr::Jal { rd, offset } => j_type(0b110_1111, rd, offset),
        Instr::Jalr { rd, rs1, imm } => i_type(0b110_0111, 0, rd, rs1, imm),
        Instr::Branch {
            op,
            rs1,
            rs2,
            offset,
        } => b_type(0b110_0011, branch_funct3(op), rs1, rs2, offset),
        Instr::Load { op, rd, rs1, imm } => i_type(0b000_0011, load_funct3(op), rd, rs1, imm),
        Instr::Store { op, rs1, rs2, imm } => s_type(0b010_0011, store_funct3(op), rs1, rs2, imm),
        Instr::AluImm { op, rd, rs1, imm } => with_immediate(op, rd, rs1, imm),
        Instr::Alu { op, rd, rs1, rs2 } => {
            let (funct3, funct7) = register_functs(op);
            r_type(0b011_0011, funct3, funct7, rd, rs1, rs2)
        }
        Instr::Fence => 0x0000_000F,
        Instr::Ecall => 0x0000_0073,
        Instr::Ebreak => 0x0010_0073,
    }
}
