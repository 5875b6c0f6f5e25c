//! What an instruction does, by the pc and the registers alone.
ghost use Rattle.std.specs.Prelude.{◌≡◌, ◌+◌, ◌%◌, ◌<◌, ◌*◌, ℕ};
ghost use Rattle.std.specs.Int.{byte_len};
ghost use Rattle.page_core.specs.Memory.{top};
ghost use Rattle.rv_isa.specs.Words.{plus};
ghost use Rattle.rv_isa.specs.Registers.{HasRegisters};
ghost use Rattle.rv_step.specs.Machine.{act_of, act_of_word, at_address, jump, act_with_words};
ghost use Rattle.rv_step.specs.Stepping.{HasTarget};

use crate::act::Act;
use crate::place::Core;
use host_calls::{Call, read_call};
use page_core::TOP;
use rv_isa::{Fault, Instr, LoadOp, StoreOp, alu, decode, taken};

// An address and an offset, modulo 2^32.
pub(crate) fn moved(base: u32, offset: i32) -> u32
    ensures { result ≡ plus base offset }
{
    base.wrapping_add(offset.cast_unsigned())
}

// The act at an address, where it is aligned and below the register page.
fn checked_at(width: u32, address: u32, act: Act) -> Act
    requires some { 0 < width }
    requires register { HasTarget act }
    ensures meaning { result ≡ at_address width address act }
    ensures register { HasTarget result }
{
    if address % width != 0 {
        Act::Faults(Fault::Misaligned(address))
    } else if address >= TOP {
        Act::Faults(Fault::BadAddress(address))
    } else {
        act
    }
}

// A jump, whose target is a multiple of 4.
fn jump_to(target: u32, rd: u8, value: u32) -> Act
    requires { rd < 32 }
    ensures meaning { result ≡ jump target rd value }
    ensures register { HasTarget result }
{
    if target % 4 == 0 {
        Act::Sets {
            pc: target,
            rd,
            value,
        }
    } else {
        Act::Faults(Fault::BadTarget(target))
    }
}

// How many bytes a load reads.
pub(crate) fn load_width(op: LoadOp) -> u32
    ensures { result ≡ byte_len (Rattle.rv_step.specs.Machine.load_width op) }
{
    match op {
        LoadOp::Lb | LoadOp::Lbu => 1,
        LoadOp::Lh | LoadOp::Lhu => 2,
        LoadOp::Lw => 4,
    }
}

// How many bytes a store writes.
pub(crate) fn store_width(op: StoreOp) -> u32
    ensures { result ≡ byte_len (Rattle.rv_step.specs.Machine.store_width op) }
{
    match op {
        StoreOp::Sb => 1,
        StoreOp::Sh => 2,
        StoreOp::Sw => 4,
    }
}

// What an instruction in range does.
#[tactic(auto, unfolding(crate::specs::Machine::act_of))]
fn act_on(instr: Instr, core: &Core) -> Act
    requires place { core.now.pc < top }
    requires registers { HasRegisters instr }
    ensures meaning { result ≡ act_of instr core.now.pc core.now.regs }
    ensures register { HasTarget result }
{
    let pc = core.pc;
    let regs = &core.regs;
    match instr {
        Instr::Lui { rd, imm } => Act::Sets {
            pc: pc + 4,
            rd,
            value: imm,
        },
        Instr::Auipc { rd, imm } => Act::Sets {
            pc: pc + 4,
            rd,
            value: pc.wrapping_add(imm),
        },
        Instr::Jal { rd, offset } => jump_to(moved(pc, offset), rd, pc + 4),
        Instr::Jalr { rd, rs1, imm } => jump_to(moved(regs.get(rs1), imm) / 2 * 2, rd, pc + 4),
        Instr::Branch {
            op,
            rs1,
            rs2,
            offset,
        } => {
            if taken(op, regs.get(rs1), regs.get(rs2)) {
                jump_to(moved(pc, offset), 0, 0)
            } else {
                Act::Sets {
                    pc: pc + 4,
                    rd: 0,
                    value: 0,
                }
            }
        }
        Instr::Load { op, rd, rs1, imm } => {
            let address = moved(regs.get(rs1), imm);
            checked_at(load_width(op), address, Act::Loads { op, rd, address })
        }
        Instr::Store { op, rs1, rs2, imm } => {
            let address = moved(regs.get(rs1), imm);
            let value = regs.get(rs2);
            checked_at(store_width(op), address, Act::Stores { op, address, value })
        }
        Instr::AluImm { op, rd, rs1, imm } => {
            Act::Sets {
                pc: pc + 4,
                rd,
                value: alu(op, regs.get(rs1), imm.cast_unsigned()),
            }
        }
        Instr::Alu { op, rd, rs1, rs2 } => {
            Act::Sets {
                pc: pc + 4,
                rd,
                value: alu(op, regs.get(rs1), regs.get(rs2)),
            }
        }
        Instr::Fence => Act::Sets {
            pc: pc + 4,
            rd: 0,
            value: 0,
        },
        Instr::Ecall => match read_call(regs) {
            Ok(call) => Act::Does(call),
            Err(fault) => Act::Faults(fault),
        },
        Instr::Ebreak => Act::Faults(Fault::Break),
    }
}

// What the instruction of a fetched word does.
#[tactic(auto, unfolding(crate::specs::Machine::act_of_word))]
pub(crate) fn act_at(word: u32, core: &Core) -> Act
    requires { core.now.pc < top }
    ensures meaning { result ≡ act_of_word word core.now.pc core.now.regs }
    ensures register { HasTarget result }
{
    match decode(word) {
        Some(instr) => act_on(instr, core),
        None => Act::Faults(Fault::Illegal(word)),
    }
}

// The act, or the end of input where it takes more words than are left.
pub(crate) fn supply(left: usize, act: Act) -> Act
    requires { HasTarget act }
    ensures meaning { result ≡ act_with_words left act }
    ensures register { HasTarget result }
{
    match act {
        Act::Does(Call::Read { count, .. }) if count as usize > left => Act::Faults(
            Fault::InputEnd,
        ),
        _ => act,
    }
}
