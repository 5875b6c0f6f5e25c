//! What an act changes.
ghost use Rattle.std.specs.Prelude.{◌≡◌, ◌+◌, ◌-◌, ◌*◌, ◌/◌, ◌%◌, ◌^◌, ◌<◌, ◌≤◌, ℕ, length, drop, IsTrue, OnOk, OnErr, ◌⊎◌};
ghost use Rattle.std.specs.Int.{byte_len, to_le_bytes, from_le_bytes};
ghost use Rattle.page_core.specs.Memory.{top, put, bytes};
ghost use Rattle.rv_isa.specs.Registers.{with_register};
ghost use Rattle.host_calls.specs.declared.call.Call.TheVariants.{Read, Commit, Assume};
ghost use Rattle.host_calls.specs.Calls.{fits_below, ranges_of, takes};
ghost use Rattle.rv_step.specs.declared.act.Act.TheVariants.{Loads, Stores, Does};
ghost use Rattle.rv_step.specs.Acts.{AllBelow, IsAligned, IsShortCall};
ghost use Rattle.rv_step.specs.Machine.{Went, act_event, call_event, sign_extension, loaded_word, load_width, store_width};
ghost use Rattle.rv_step.specs.Tapes.{Tape, Log};
ghost use Rattle.rv_step.specs.Stepping.{Opens, AllOpen, AnswersEvent, state_at};

use crate::access::{
    load_byte, load_bytes, load_digest, load_half, make_range_ready, store_byte, store_half,
    store_words,
};
use crate::bus::Bus;
use crate::place::Core;
use crate::run_log::RunLog;
use crate::stepping::{Event, StepStop};
use crate::tape::WordTape;
use host_calls::{AssumeCall, Call};
use rv_isa::{LoadOp, StoreOp};
use std::alloc::AllocError;

// Goes on at the next word, with a value in a register.
pub(crate) fn go_on(core: &mut Core, rd: u8, value: u32)
    requires register { rd < 32 }
    requires place { core.old.pc < top }
    ensures { core.new
        ≡ record { pc = core.old.pc + 4; regs = with_register core.old.regs rd value } }
{
    core.pc += 4;
    core.regs.set(rd, value);
}

// A number below twice `half` as a word, its sign extended.
fn sign_extended(value: u32, half: u32) -> u32
    requires half { half ≤ 2 ^ 15 }
    requires value { value < 2 * half }
    ensures { result ≡ sign_extension half value }
{
    if value < half {
        value
    } else {
        value.wrapping_sub(2 * half)
    }
}

// The word that a load reads.
pub(crate) fn load_value<B: Bus>(op: LoadOp, address: u32, bus: &B) -> u32
    requires aligned { address % byte_len (load_width op) ≡ 0 }
    requires opened { IsTrue (B.opens bus.now (address / 1024)) }
    ensures { result
        ≡ loaded_word op (from_le_bytes (load_width op)
        (bytes (B.byte_at bus.now) address (byte_len (load_width op)))) }
{
    match op {
        LoadOp::Lb => sign_extended(u32::from(load_byte(bus, address)), 1 << 7),
        LoadOp::Lh => sign_extended(u32::from(load_half(bus, address)), 1 << 15),
        LoadOp::Lw => bus.load_word(address),
        LoadOp::Lbu => u32::from(load_byte(bus, address)),
        LoadOp::Lhu => u32::from(load_half(bus, address)),
    }
}

// Writes what a store writes, in a page that is ready.
pub(crate) fn store_value<B: Bus>(op: StoreOp, address: u32, value: u32, bus: &mut B)
    requires aligned { address % byte_len (store_width op) ≡ 0 }
    requires opened { IsTrue (B.opens bus.old (address / 1024)) }
    requires room { IsTrue (B.readies bus.old (address / 1024)) }
    ensures same_pages { B.opens bus.new ≡ B.opens bus.old }
    ensures written { B.byte_at bus.new
        ≡ put (B.byte_at bus.old) address (to_le_bytes (store_width op) value) }
{
    match op {
        StoreOp::Sb => store_byte(bus, address, (value % 256) as u8),
        StoreOp::Sh => store_half(bus, address, (value % 65_536) as u16),
        StoreOp::Sw => bus.store_word(address, value),
    }
}

// Does a load from an open page.
pub(crate) fn load<B: Bus>(op: LoadOp, rd: u8, address: u32, core: &mut Core, bus: &B)
    requires register { rd < 32 }
    requires place { core.old.pc < top }
    requires aligned { address % byte_len (load_width op) ≡ 0 }
    requires opened { IsTrue (B.opens bus.now (address / 1024)) }
    ensures place { core.new.pc ≡ core.old.pc + 4 }
    ensures went { (tape : Tape) (log : Log) →
        act_event (Loads op rd address) (state_at core.old (B.byte_at bus.now) tape
        log) ≡ Went (state_at core.new (B.byte_at bus.now) tape log) }
{
    let value = load_value(op, address, bus);
    go_on(core, rd, value);
}

// Does a store to an open page.
pub(crate) fn store<B: Bus>(
    op: StoreOp,
    address: u32,
    value: u32,
    core: &mut Core,
    bus: &mut B,
) -> Result<(), AllocError>
    requires place { core.old.pc < top }
    requires aligned { address % byte_len (store_width op) ≡ 0 }
    requires opened { IsTrue (B.opens bus.old (address / 1024)) }
    ensures same_pages { B.opens bus.new ≡ B.opens bus.old }
    ensures place { OnOk result (core.new.pc ≡ core.old.pc + 4) }
    ensures went { OnOk result
        ((tape : Tape) (log : Log) →
        act_event (Stores op address value) (state_at core.old (B.byte_at bus.old) tape
        log) ≡ Went (state_at core.new (B.byte_at bus.new) tape log)) }
    ensures refused { OnErr result
        ((core.new ≡ core.old) × (B.byte_at bus.new ≡ B.byte_at bus.old)) }
{
    bus.make_ready(address / 1024)?;
    store_value(op, address, value, bus);
    go_on(core, 0, 0);
    Ok(())
}

// Does READ, into open pages.
fn read<B: Bus>(
    pointer: u32,
    count: u32,
    core: &mut Core,
    bus: &mut B,
    tape: &mut WordTape,
) -> Result<(), AllocError>
    requires place { core.old.pc < top }
    requires count { count ≤ 256 }
    requires aligned { pointer % 4 ≡ 0 }
    requires below { IsTrue (fits_below pointer (4 * count)) }
    requires opened { Opens (B.opens bus.old) pointer (4 * count) }
    requires supplied { count ≤ length (drop tape.old.used tape.old.words) }
    ensures same_pages { B.opens bus.new ≡ B.opens bus.old }
    ensures same_words { tape.new.words ≡ tape.old.words }
    ensures place { OnOk result (core.new.pc ≡ core.old.pc + 4) }
    ensures went { OnOk result
        ((log : Log) → call_event (Read pointer count)
        (state_at core.old (B.byte_at bus.old) tape.old log) ≡ Went (state_at core.new
        (B.byte_at bus.new) tape.new log)) }
    ensures refused { OnErr result
        ((core.new ≡ core.old) × (B.byte_at bus.new ≡ B.byte_at bus.old) × (tape.new ≡ tape.old)) }
{
    if count == 0 {
        go_on(core, 10, 0);
        return Ok(());
    }
    make_range_ready(bus, pointer, 4 * count)?;
    store_words(bus, pointer, &tape.rest()[..count as usize]);
    tape.skip(count as usize);
    go_on(core, 10, count);
    Ok(())
}

// Does COMMIT, from open pages.
fn commit<B: Bus>(
    pointer: u32,
    count: u32,
    core: &mut Core,
    bus: &B,
    log: &mut RunLog,
) -> Result<(), AllocError>
    requires place { core.old.pc < top }
    requires count { count ≤ 1024 }
    requires below { IsTrue (fits_below pointer count) }
    requires opened { Opens (B.opens bus.now) pointer count }
    ensures place { OnOk result (core.new.pc ≡ core.old.pc + 4) }
    ensures went { OnOk result
        ((tape : Tape) →
        call_event (Commit pointer count) (state_at core.old (B.byte_at bus.now) tape
        log.old) ≡ Went (state_at core.new (B.byte_at bus.now) tape log.new)) }
    ensures refused { OnErr result ((core.new ≡ core.old) × (log.new ≡ log.old)) }
{
    if count == 0 {
        go_on(core, 10, 0);
        return Ok(());
    }
    let mut buffer = [0; 1024];
    let bytes = &mut buffer[..count as usize];
    load_bytes(bus, pointer, bytes);
    log.commit(bytes)?;
    go_on(core, 10, count);
    Ok(())
}

// Does ASSUME, from open pages.
fn assume<B: Bus>(
    image: u32,
    journal: u32,
    core: &mut Core,
    bus: &B,
    log: &mut RunLog,
) -> Result<(), AllocError>
    requires place { core.old.pc < top }
    requires image_below { IsTrue (fits_below image 32) }
    requires journal_below { IsTrue (fits_below journal 32) }
    requires image_open { Opens (B.opens bus.now) image 32 }
    requires journal_open { Opens (B.opens bus.now) journal 32 }
    ensures place { OnOk result (core.new.pc ≡ core.old.pc + 4) }
    ensures went { OnOk result
        ((tape : Tape) →
        call_event (Assume image journal) (state_at core.old (B.byte_at bus.now) tape
        log.old) ≡ Went (state_at core.new (B.byte_at bus.now) tape log.new)) }
    ensures refused { OnErr result ((core.new ≡ core.old) × (log.new ≡ log.old)) }
{
    let call = AssumeCall {
        image: load_digest(bus, image),
        journal: load_digest(bus, journal),
    };
    log.assume(call)?;
    go_on(core, 10, 0);
    Ok(())
}

// Does a host call, over open pages.
pub(crate) fn perform<B: Bus>(
    call: Call,
    core: &mut Core,
    bus: &mut B,
    tape: &mut WordTape,
    log: &mut RunLog,
) -> Result<Event, StepStop>
    requires place { core.old.pc < top }
    requires limits { IsShortCall (Does call) }
    requires aligned { IsAligned (Does call) }
    requires below { AllBelow (ranges_of call) }
    requires opened { AllOpen (B.opens bus.old) (ranges_of call) }
    requires supplied { takes call ≤ length (drop tape.old.used tape.old.words) }
    ensures place { (core.new ≡ core.old) ⊎ (core.new.pc ≡ core.old.pc + 4) }
    ensures same_pages { B.opens bus.new ≡ B.opens bus.old }
    ensures same_words { tape.new.words ≡ tape.old.words }
    ensures answer { AnswersEvent
        (call_event call (state_at core.old (B.byte_at bus.old) tape.old log.old)) (state_at
        core.old (B.byte_at bus.old) tape.old log.old) (state_at core.new (B.byte_at
        bus.new) tape.new log.new) result }
    ensures refused { OnErr result
        ((core.new ≡ core.old) × (B.byte_at bus.new ≡ B.byte_at bus.old) × (tape.new ≡ tape.old)
        × (log.new ≡ log.old)) }
{
    match call {
        Call::Halt { code } => return Ok(Event::Halted(code)),
        Call::Read { pointer, count } => read(pointer, count, core, bus, tape)?,
        Call::Commit { pointer, count } => commit(pointer, count, core, bus, log)?,
        Call::Assume { image, journal } => assume(image, journal, core, bus, log)?,
    }
    Ok(Event::Went)
}
