//! The instructions of words, one function an opcode.
ghost use Rattle.std.specs.Prelude.{◌≡◌, IfSome, IsTrue};
ghost use Rattle.rv_isa.specs.Rows.{decode_of, opcode};
ghost use Rattle.rv_isa.specs.Registers.{HasRegisters};
ghost use Rattle.rv_isa.specs.Encoding.{valid};
ghost use Rattle.rv_isa.specs.Classes.{branch_op_of, load_op_of, store_op_of, immediate_op_of, shift_op_of, register_op_of};

use crate::fields::{
    field, immediate_b, immediate_i, immediate_j, immediate_s, immediate_u, register,
};
use crate::instr::{AluOp, BranchOp, Instr, LoadOp, StoreOp};

fn branch_op(funct3: u32) -> Option<BranchOp>
    ensures { result ≡ branch_op_of funct3 }
{
    match funct3 {
        0 => Some(BranchOp::Beq),
        1 => Some(BranchOp::Bne),
        4 => Some(BranchOp::Blt),
        5 => Some(BranchOp::Bge),
        6 => Some(BranchOp::Bltu),
        7 => Some(BranchOp::Bgeu),
        _ => None,
    }
}

#[tactic(auto, using(crate::proofs::Classes::decode_branch))]
fn branch(word: u32) -> Option<Instr>
    requires { opcode word ≡ 0b1100011 }
    ensures meaning { result ≡ decode_of word }
    ensures registers { IfSome result HasRegisters }
    ensures valid { IfSome result (λ instr. IsTrue (valid instr)) }
{
    let op = branch_op(field(word, 12, 3))?;
    Some(Instr::Branch {
        op,
        rs1: register(word, 15),
        rs2: register(word, 20),
        offset: immediate_b(word),
    })
}

#[tactic(auto, using(crate::proofs::Classes::decode_jalr))]
fn jump_to_register(word: u32) -> Option<Instr>
    requires { opcode word ≡ 0b1100111 }
    ensures meaning { result ≡ decode_of word }
    ensures registers { IfSome result HasRegisters }
    ensures valid { IfSome result (λ instr. IsTrue (valid instr)) }
{
    if field(word, 12, 3) == 0 {
        Some(Instr::Jalr {
            rd: register(word, 7),
            rs1: register(word, 15),
            imm: immediate_i(word),
        })
    } else {
        None
    }
}

fn load_op(funct3: u32) -> Option<LoadOp>
    ensures { result ≡ load_op_of funct3 }
{
    match funct3 {
        0 => Some(LoadOp::Lb),
        1 => Some(LoadOp::Lh),
        2 => Some(LoadOp::Lw),
        4 => Some(LoadOp::Lbu),
        5 => Some(LoadOp::Lhu),
        _ => None,
    }
}

#[tactic(auto, using(crate::proofs::Classes::decode_load))]
fn load(word: u32) -> Option<Instr>
    requires { opcode word ≡ 0b0000011 }
    ensures meaning { result ≡ decode_of word }
    ensures registers { IfSome result HasRegisters }
    ensures valid { IfSome result (λ instr. IsTrue (valid instr)) }
{
    let op = load_op(field(word, 12, 3))?;
    Some(Instr::Load {
        op,
        rd: register(word, 7),
        rs1: register(word, 15),
        imm: immediate_i(word),
    })
}

fn store_op(funct3: u32) -> Option<StoreOp>
    ensures { result ≡ store_op_of funct3 }
{
    match funct3 {
        0 => Some(StoreOp::Sb),
        1 => Some(StoreOp::Sh),
        2 => Some(StoreOp::Sw),
        _ => None,
    }
}

#[tactic(auto, using(crate::proofs::Classes::decode_store))]
fn store(word: u32) -> Option<Instr>
    requires { opcode word ≡ 0b0100011 }
    ensures meaning { result ≡ decode_of word }
    ensures registers { IfSome result HasRegisters }
    ensures valid { IfSome result (λ instr. IsTrue (valid instr)) }
{
    let op = store_op(field(word, 12, 3))?;
    Some(Instr::Store {
        op,
        rs1: register(word, 15),
        rs2: register(word, 20),
        imm: immediate_s(word),
    })
}

fn immediate_op(funct3: u32) -> Option<AluOp>
    ensures { result ≡ immediate_op_of funct3 }
{
    match funct3 {
        0 => Some(AluOp::Add),
        2 => Some(AluOp::Slt),
        3 => Some(AluOp::Sltu),
        4 => Some(AluOp::Xor),
        6 => Some(AluOp::Or),
        7 => Some(AluOp::And),
        _ => None,
    }
}

fn shift_op(funct3: u32, funct7: u32) -> Option<AluOp>
    ensures { result ≡ shift_op_of funct3 funct7 }
{
    match (funct3, funct7) {
        (1, 0) => Some(AluOp::Sll),
        (5, 0) => Some(AluOp::Srl),
        (5, 32) => Some(AluOp::Sra),
        _ => None,
    }
}

#[tactic(auto, using(crate::proofs::Classes::decode_immediates))]
fn with_immediate(word: u32) -> Option<Instr>
    requires { opcode word ≡ 0b0010011 }
    ensures meaning { result ≡ decode_of word }
    ensures registers { IfSome result HasRegisters }
    ensures valid { IfSome result (λ instr. IsTrue (valid instr)) }
{
    let funct3 = field(word, 12, 3);
    let rd = register(word, 7);
    let rs1 = register(word, 15);
    if let Some(op) = immediate_op(funct3) {
        return Some(Instr::AluImm {
            op,
            rd,
            rs1,
            imm: immediate_i(word),
        });
    }
    let op = shift_op(funct3, field(word, 25, 7))?;
    Some(Instr::AluImm {
        op,
        rd,
        rs1,
        imm: i32::from(register(word, 20)),
    })
}

fn register_op(funct3: u32, funct7: u32) -> Option<AluOp>
    ensures { result ≡ register_op_of funct7 funct3 }
{
    match (funct7, funct3) {
        (0, 0) => Some(AluOp::Add),
        (0, 1) => Some(AluOp::Sll),
        (0, 2) => Some(AluOp::Slt),
        (0, 3) => Some(AluOp::Sltu),
        (0, 4) => Some(AluOp::Xor),
        (0, 5) => Some(AluOp::Srl),
        (0, 6) => Some(AluOp::Or),
        (0, 7) => Some(AluOp::And),
        (32, 0) => Some(AluOp::Sub),
        (32, 5) => Some(AluOp::Sra),
        (1, 0) => Some(AluOp::Mul),
        (1, 1) => Some(AluOp::Mulh),
        (1, 2) => Some(AluOp::Mulhsu),
        (1, 3) => Some(AluOp::Mulhu),
        (1, 4) => Some(AluOp::Div),
        (1, 5) => Some(AluOp::Divu),
        (1, 6) => Some(AluOp::Rem),
        (1, 7) => Some(AluOp::Remu),
        _ => None,
    }
}

#[tactic(auto, using(crate::proofs::Classes::decode_registers))]
fn with_registers(word: u32) -> Option<Instr>
    requires { opcode word ≡ 0b0110011 }
    ensures meaning { result ≡ decode_of word }
    ensures registers { IfSome result HasRegisters }
    ensures valid { IfSome result (λ instr. IsTrue (valid instr)) }
{
    let op = register_op(field(word, 12, 3), field(word, 25, 7))?;
    Some(Instr::Alu {
        op,
        rd: register(word, 7),
        rs1: register(word, 15),
        rs2: register(word, 20),
    })
}

#[tactic(auto, using(crate::proofs::Classes::decode_fence))]
fn fence(word: u32) -> Option<Instr>
    requires { opcode word ≡ 0b0001111 }
    ensures meaning { result ≡ decode_of word }
    ensures registers { IfSome result HasRegisters }
    ensures valid { IfSome result (λ instr. IsTrue (valid instr)) }
{
    if field(word, 12, 3) == 0 {
        Some(Instr::Fence)
    } else {
        None
    }
}

#[tactic(auto, using(crate::proofs::Classes::decode_system))]
fn system(word: u32) -> Option<Instr>
    requires { opcode word ≡ 0b1110011 }
    ensures meaning { result ≡ decode_of word }
    ensures registers { IfSome result HasRegisters }
    ensures valid { IfSome result (λ instr. IsTrue (valid instr)) }
{
    match word {
        0x0000_0073 => Some(Instr::Ecall),
        0x0010_0073 => Some(Instr::Ebreak),
        _ => None,
    }
}

/// The instruction that a word is; None exactly where no row of the table matches it. It takes no memory.
#[tactic(auto, using(crate::proofs::Table::decode_lui, crate::proofs::Classes::decode_auipc, crate::proofs::Classes::decode_jal, crate::proofs::Classes::decode_none))]
pub fn decode(word: u32) -> Option<Instr>
    ensures meaning { result ≡ decode_of word }
    ensures registers { IfSome result HasRegisters }
    ensures valid { IfSome result (λ instr. IsTrue (valid instr)) }
{
    match field(word, 0, 7) {
        0b011_0111 => Some(Instr::Lui {
            rd: register(word, 7),
            imm: immediate_u(word),
        }),
        0b001_0111 => Some(Instr::Auipc {
            rd: register(word, 7),
            imm: immediate_u(word),
        }),
        0b110_1111 => Some(Instr::Jal {
            rd: register(word, 7),
            offset: immediate_j(word),
        }),
        0b110_0111 => jump_to_register(word),
        0b110_0011 => branch(word),
        0b000_0011 => load(word),
        0b010_0011 => store(word),
        0b001_0011 => with_immediate(word),
        0b011_0011 => with_registers(word),
        0b000_1111 => fence(word),
        0b111_0011 => system(word),
        _ => None,
    }
}
