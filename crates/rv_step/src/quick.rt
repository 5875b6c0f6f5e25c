//! The common case of a step, done in place: it goes on, costs 1 and takes no memory. Whatever else comes is declined,
//! with nothing changed, and left to `step`.
ghost use Rattle.std.specs.Prelude.{◌≡◌, ℕ, Bool, ◌+◌, ◌/◌, ◌%◌, ◌<◌, ◌≤◌, IsTrue, IsFalse};
ghost use Rattle.std.specs.Int.{byte_len};
ghost use Rattle.page_core.specs.Memory.{top};
ghost use Rattle.page_core.specs.declared.sizes.TheConstants.{REGISTER_PAGE};
ghost use Rattle.rv_isa.specs.Registers.{HasRegisters};
ghost use Rattle.rv_step.specs.Machine.{act_of, at_address, jump, load_width, store_width};
ghost use Rattle.rv_step.specs.declared.act.Act.TheVariants.{Sets, Loads, Stores};
ghost use Rattle.rv_step.specs.Quick.{DoesPlainly, StepsQuickly, GoesQuickly};
ghost use Rattle.rv_step.specs.Stepping.{state_at};
ghost use Rattle.rv_step.specs.Tapes.{Tape, Log};

use crate::acting::{load_width, moved, store_width};
use crate::bus::Bus;
use crate::decode_table::DecodeTable;
use crate::doing::{go_on, load_value, store_value};
use crate::page_set::PageSet;
use crate::place::Core;
use page_core::{REGISTER_PAGE, TOP};
use rv_isa::{Instr, LoadOp, StoreOp, alu, taken};

// Whether data of this width at an address are aligned, below the register page, and in a page of the set.
#[inline(always)]
fn is_within<P: PageSet>(pages: &P, width: u32, address: u32) -> bool
    requires { 0 < width }
    ensures aligned { IsTrue result → address % width ≡ 0 }
    ensures below { IsTrue result → address < top }
    ensures held { IsTrue result → IsTrue (P.holds pages.now (address / 1024)) }
{
    address % width == 0 && address < TOP && pages.has(address / 1024)
}

// Jumps, if the target is a multiple of 4.
#[inline(always)]
fn jump_quickly(core: &mut Core, target: u32, rd: u8, value: u32) -> bool
    requires { rd < 32 }
    ensures went { IsTrue result → (m : ℕ → ℕ) (holds : ℕ → Bool) →
        DoesPlainly holds (jump target rd value) core.old core.new m m }
    ensures aligned { IsTrue result → core.new.pc % 4 ≡ 0 }
    ensures stays { IsFalse result → core.new ≡ core.old }
{
    if target % 4 != 0 {
        return false;
    }
    core.regs.set(rd, value);
    core.pc = target;
    true
}

// Goes on at the next word, with a value in a register.
#[inline(always)]
fn set_quickly(core: &mut Core, rd: u8, value: u32) -> bool
    requires register { rd < 32 }
    requires place { core.old.pc < top }
    ensures went { (m : ℕ → ℕ) (holds : ℕ → Bool) →
        DoesPlainly holds (Sets (core.old.pc + 4) rd value) core.old core.new m m }
    ensures place { core.new.pc ≡ core.old.pc + 4 }
    ensures always { IsTrue result }
{
    go_on(core, rd, value);
    true
}

// Does a load, if it doesn't fault and reads a page of the set.
#[inline(always)]
fn load_quickly<B: Bus, P: PageSet>(
    op: LoadOp,
    rd: u8,
    address: u32,
    core: &mut Core,
    bus: &B,
    pages: &P,
) -> bool
    requires register { rd < 32 }
    requires place { core.old.pc < top }
    requires open { (p : ℕ) → IsTrue (P.holds pages.now p) → IsTrue (B.opens bus.now p) }
    ensures went { IsTrue result →
        DoesPlainly (P.holds pages.now)
        (at_address (byte_len (load_width op)) address (Loads op rd address)) core.old
        core.new (B.byte_at bus.now) (B.byte_at bus.now) }
    ensures place { IsTrue result → core.new.pc ≡ core.old.pc + 4 }
    ensures stays { IsFalse result → core.new ≡ core.old }
{
    if !is_within(pages, load_width(op), address) {
        return false;
    }
    let value = load_value(op, address, bus);
    go_on(core, rd, value);
    true
}

// Does a store, if it doesn't fault and writes a page of the set that is ready.
#[inline(always)]
fn store_quickly<B: Bus, P: PageSet>(
    op: StoreOp,
    address: u32,
    value: u32,
    core: &mut Core,
    bus: &mut B,
    pages: &P,
) -> bool
    requires place { core.old.pc < top }
    requires open { (p : ℕ) → IsTrue (P.holds pages.now p) → IsTrue (B.opens bus.old p) }
    ensures went { IsTrue result →
        DoesPlainly (P.holds pages.now)
        (at_address (byte_len (store_width op)) address (Stores op address value)) core.old
        core.new (B.byte_at bus.old) (B.byte_at bus.new) }
    ensures place { IsTrue result → core.new.pc ≡ core.old.pc + 4 }
    ensures same_pages { B.opens bus.new ≡ B.opens bus.old }
    ensures stays { IsFalse result →
        (core.new ≡ core.old) × (B.byte_at bus.new ≡ B.byte_at bus.old) }
{
    if !is_within(pages, store_width(op), address) || !bus.is_ready(address / 1024) {
        return false;
    }
    store_value(op, address, value, bus);
    go_on(core, 0, 0);
    true
}

// Does an instruction, if it merely goes on; else nothing.
#[inline(always)]
#[tactic(auto, unfolding(crate::specs::Machine::act_of))]
fn do_quickly<B: Bus, P: PageSet>(instr: Instr, core: &mut Core, bus: &mut B, pages: &P) -> bool
    requires place { core.old.pc < top }
    requires aligned { core.old.pc % 4 ≡ 0 }
    requires registers { HasRegisters instr }
    requires open { (p : ℕ) → IsTrue (P.holds pages.now p) → IsTrue (B.opens bus.old p) }
    ensures went { IsTrue result →
        DoesPlainly (P.holds pages.now) (act_of instr core.old.pc core.old.regs) core.old
        core.new (B.byte_at bus.old) (B.byte_at bus.new) }
    ensures aligned { core.new.pc % 4 ≡ 0 }
    ensures same_pages { B.opens bus.new ≡ B.opens bus.old }
    ensures stays { IsFalse result →
        (core.new ≡ core.old) × (B.byte_at bus.new ≡ B.byte_at bus.old) }
{
    let pc = core.pc;
    match instr {
        Instr::Lui { rd, imm } => set_quickly(core, rd, imm),
        Instr::Auipc { rd, imm } => set_quickly(core, rd, pc.wrapping_add(imm)),
        Instr::Jal { rd, offset } => jump_quickly(core, moved(pc, offset), rd, pc + 4),
        Instr::Jalr { rd, rs1, imm } => {
            let target = moved(core.regs.get(rs1), imm) / 2 * 2;
            jump_quickly(core, target, rd, pc + 4)
        }
        Instr::Branch {
            op,
            rs1,
            rs2,
            offset,
        } => {
            if taken(op, core.regs.get(rs1), core.regs.get(rs2)) {
                jump_quickly(core, moved(pc, offset), 0, 0)
            } else {
                set_quickly(core, 0, 0)
            }
        }
        Instr::Load { op, rd, rs1, imm } => {
            let address = moved(core.regs.get(rs1), imm);
            load_quickly(op, rd, address, core, bus, pages)
        }
        Instr::Store { op, rs1, rs2, imm } => {
            let address = moved(core.regs.get(rs1), imm);
            let value = core.regs.get(rs2);
            store_quickly(op, address, value, core, bus, pages)
        }
        Instr::AluImm { op, rd, rs1, imm } => {
            let value = alu(op, core.regs.get(rs1), imm.cast_unsigned());
            set_quickly(core, rd, value)
        }
        Instr::Alu { op, rd, rs1, rs2 } => {
            let value = alu(op, core.regs.get(rs1), core.regs.get(rs2));
            set_quickly(core, rd, value)
        }
        Instr::Fence => set_quickly(core, 0, 0),
        Instr::Ecall | Instr::Ebreak => false,
    }
}

// Does the next step, if it merely goes on, costs 1, takes no memory and touches pages of the set alone; else nothing.
#[inline(always)]
fn quick_step<B: Bus, P: PageSet>(
    core: &mut Core,
    bus: &mut B,
    pages: &P,
    table: &mut DecodeTable,
) -> bool
    requires aligned { core.old.pc % 4 ≡ 0 }
    requires registers { IsTrue (P.holds pages.now REGISTER_PAGE) }
    requires open { (p : ℕ) → IsTrue (P.holds pages.now p) → IsTrue (B.opens bus.old p) }
    ensures went { IsTrue result → (tape : Tape) (log : Log) →
        StepsQuickly (P.holds pages.now) (state_at core.old (B.byte_at bus.old) tape log)
        (state_at core.new (B.byte_at bus.new) tape log) }
    ensures aligned { core.new.pc % 4 ≡ 0 }
    ensures same_pages { B.opens bus.new ≡ B.opens bus.old }
    ensures stays { IsFalse result →
        (core.new ≡ core.old) × (B.byte_at bus.new ≡ B.byte_at bus.old) }
{
    let pc = core.pc;
    if pc >= TOP || !pages.has(pc / 1024) {
        return false;
    }
    match table.decode(pc, bus.load_word(pc)) {
        Some(instr) => do_quickly(instr, core, bus, pages),
        None => false,
    }
}

/// Does the next steps in place, at most `room` of them, as long as each merely goes on, costs 1, takes no memory and
/// touches pages of the set alone, and tells how many it did. Fewer than `room` say nothing of the step that comes next:
/// `step` does it. The pc is a multiple of 4, and the pages of the set are open.
#[inline(never)]
pub fn quick_steps<B: Bus, P: PageSet>(
    core: &mut Core,
    bus: &mut B,
    pages: &P,
    table: &mut DecodeTable,
    room: u64,
) -> u64
    requires aligned { core.old.pc % 4 ≡ 0 }
    requires open { (p : ℕ) → IsTrue (P.holds pages.now p) → IsTrue (B.opens bus.old p) }
    ensures bound { result ≤ room }
    ensures went { (tape : Tape) (log : Log) →
        GoesQuickly (P.holds pages.now) (state_at core.old (B.byte_at bus.old) tape log) result
        (state_at core.new (B.byte_at bus.new) tape log) }
    ensures aligned { core.new.pc % 4 ≡ 0 }
    ensures same_pages { B.opens bus.new ≡ B.opens bus.old }
{
    let mut done = 0;
    if !pages.has(REGISTER_PAGE) {
        return done;
    }
    while done < room && quick_step(core, bus, pages, table) {
        done += 1;
    }
    done
}
