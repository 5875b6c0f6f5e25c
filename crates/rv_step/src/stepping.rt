ghost use Rattle.std.specs.Prelude.{◌≡◌, ◌%◌, Some, IfOk, IfErr, OnErr};
ghost use Rattle.rv_step.specs.Machine.{first_closed, foot_of};
ghost use Rattle.rv_step.specs.Tapes.{Log};
ghost use Rattle.rv_step.specs.Stepping.{state_at, HasTarget, IsNext, IsStepOf, IsPaidStepOf};
ghost use Rattle.rv_step.specs.declared.stepping.StepStop.TheVariants as S;

use crate::act::Act;
use crate::bus::Bus;
use crate::doing::{load, perform, store};
use crate::looking::{cost_of, fetch, footprint};
use crate::place::Core;
use crate::run_log::RunLog;
use crate::tape::WordTape;
use rv_isa::Fault;
use std::alloc::AllocError;

/// What a step did.
#[derive(Clone, Copy, Debug, PartialEq, Eq)]
pub enum Event {
    /// The run goes on.
    Went,
    /// The run ended, with this exit code.
    Halted(u32),
}

/// A step that was done: what it did, and its cost, 1 to 257.
#[derive(Clone, Copy, Debug, PartialEq, Eq)]
pub struct Paid {
    pub event: Event,
    pub cost: u32,
}

/// Why a step was not done. The core, the bus, the tape and the log are then as before.
#[derive(Clone, Copy, Debug, PartialEq, Eq)]
pub enum StepStop {
    /// The first page of the footprint that isn't open.
    Miss(u32),
    /// All pages of the footprint are open, and the step faults.
    Fault(Fault),
    /// There was no memory.
    Memory,
}

impl From<AllocError> for StepStop {
    ghost from_gives = { λ _ stop. stop ≡ S.Memory };

    fn from(_error: AllocError) -> StepStop {
        StepStop::Memory
    }
}

// The first of these pages that isn't open.
fn first_missing<B: Bus>(bus: &B, pages: &[u32]) -> Option<u32>
    ensures { result ≡ first_closed (B.opens bus.now) pages.now }
{
    for page in pages {
        if !bus.is_open(*page) {
            return Some(*page);
        }
    }
    None
}

// The act of the next step, or the first page of its footprint that isn't open.
fn next_act<B: Bus>(core: &Core, bus: &B, tape: &WordTape) -> Result<Act, u32>
    requires { core.now.pc % 4 ≡ 0 }
    ensures missed { (log : Log) →
        IfErr result (λ page. first_closed (B.opens bus.now)
        (foot_of (state_at core.now (B.byte_at bus.now) tape.now log)) ≡ Some page) }
    ensures next { (log : Log) →
        IfOk result (λ act. IsNext (B.opens bus.now)
        (state_at core.now (B.byte_at bus.now) tape.now log) act) }
    ensures register { IfOk result (λ act. HasTarget act) }
{
    let act = fetch(core, bus, tape)?;
    let foot = footprint(core.pc, &act);
    match first_missing(bus, foot.pages()) {
        Some(page) => Err(page),
        None => Ok(act),
    }
}

// Does the act of the next step, whose footprint is open.
fn perform_act<B: Bus>(
    act: Act,
    core: &mut Core,
    bus: &mut B,
    tape: &mut WordTape,
    log: &mut RunLog,
) -> Result<Event, StepStop>
    requires aligned { core.old.pc % 4 ≡ 0 }
    requires next { IsNext (B.opens bus.old)
        (state_at core.old (B.byte_at bus.old) tape.old log.old) act }
    requires register { HasTarget act }
    ensures aligned { core.new.pc % 4 ≡ 0 }
    ensures same_pages { B.opens bus.new ≡ B.opens bus.old }
    ensures same_words { tape.new.words ≡ tape.old.words }
    ensures answer { IsStepOf (B.opens bus.old)
        (state_at core.old (B.byte_at bus.old) tape.old log.old) (state_at core.new
        (B.byte_at bus.new) tape.new log.new) result }
    ensures refused { OnErr result
        ((core.new ≡ core.old) × (B.byte_at bus.new ≡ B.byte_at bus.old) × (tape.new ≡ tape.old)
        × (log.new ≡ log.old)) }
{
    match act {
        Act::Sets { pc, rd, value } => {
            core.regs.set(rd, value);
            core.pc = pc;
            Ok(Event::Went)
        }
        Act::Loads { op, rd, address } => {
            load(op, rd, address, core, bus);
            Ok(Event::Went)
        }
        Act::Stores { op, address, value } => {
            store(op, address, value, core, bus)?;
            Ok(Event::Went)
        }
        Act::Does(call) => perform(call, core, bus, tape, log),
        Act::Faults(fault) => Err(StepStop::Fault(fault)),
    }
}

/// One step: fetches the word at the pc, which is a multiple of 4, decodes it, tests it for faults and
/// does it. A halt changes nothing.
///
/// Which pages of the bus are open and the words of the tape never change. A refusal leaves the core,
/// the bytes of the bus, the tape and the log as before, since what needs memory is taken first.
pub fn step<B: Bus>(
    core: &mut Core,
    bus: &mut B,
    tape: &mut WordTape,
    log: &mut RunLog,
) -> Result<Event, StepStop>
    requires { core.old.pc % 4 ≡ 0 }
    ensures aligned { core.new.pc % 4 ≡ 0 }
    ensures same_pages { B.opens bus.new ≡ B.opens bus.old }
    ensures same_words { tape.new.words ≡ tape.old.words }
    ensures answer { IsStepOf (B.opens bus.old)
        (state_at core.old (B.byte_at bus.old) tape.old log.old) (state_at core.new
        (B.byte_at bus.new) tape.new log.new) result }
    ensures refused { OnErr result
        ((core.new ≡ core.old) × (B.byte_at bus.new ≡ B.byte_at bus.old) × (tape.new ≡ tape.old)
        × (log.new ≡ log.old)) }
{
    let act = match next_act(core, bus, tape) {
        Ok(act) => act,
        Err(page) => return Err(StepStop::Miss(page)),
    };
    perform_act(act, core, bus, tape, log)
}

/// One step that costs at most `room`, done as `step` does it. None comes exactly where all pages of the footprint are
/// open and the step costs more, before its fault is told; then nothing is changed.
pub fn step_within<B: Bus>(
    core: &mut Core,
    bus: &mut B,
    tape: &mut WordTape,
    log: &mut RunLog,
    room: u64,
) -> Result<Option<Paid>, StepStop>
    requires { core.old.pc % 4 ≡ 0 }
    ensures aligned { core.new.pc % 4 ≡ 0 }
    ensures same_pages { B.opens bus.new ≡ B.opens bus.old }
    ensures same_words { tape.new.words ≡ tape.old.words }
    ensures answer { IsPaidStepOf (B.opens bus.old) room
        (state_at core.old (B.byte_at bus.old) tape.old log.old) (state_at core.new
        (B.byte_at bus.new) tape.new log.new) result }
    ensures refused { OnErr result
        ((core.new ≡ core.old) × (B.byte_at bus.new ≡ B.byte_at bus.old) × (tape.new ≡ tape.old)
        × (log.new ≡ log.old)) }
{
    let act = match next_act(core, bus, tape) {
        Ok(act) => act,
        Err(page) => return Err(StepStop::Miss(page)),
    };
    let cost = cost_of(&act);
    if u64::from(cost) > room {
        return Ok(None);
    }
    let event = perform_act(act, core, bus, tape, log)?;
    Ok(Some(Paid { event, cost }))
}
