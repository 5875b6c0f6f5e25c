ghost use Rattle.std.specs.Prelude.{◌≡◌, ℕ, ◌+◌, ◌-◌, ◌<◌, ◌≤◌, ◌%◌, ◌==◌, ◌⊎◌, length, IfOk, IfErr, IsTrue, Contains, Some, None, slice_index_or, false};
ghost use Rattle.page_core.specs.Memory.{is_among};
ghost use Rattle.part_tree.specs.declared.sizes.TheConstants.{HEIGHT};
ghost use Rattle.part_tree.specs.Part.{IsPart};
ghost use Rattle.rv_step.specs.Machine.{first_closed, foot_of, step_of};
ghost use Rattle.rv_step.specs.Quick.{GoesQuickly};
ghost use Rattle.rv_step.specs.Tapes.{Tape, Log};
ghost use Rattle.rv_step.specs.Stepping.{state_at};
ghost use Rattle.seal_replay.specs.declared.stop.ReplayStop.TheVariants.{Memory};
ghost use Rattle.seal_replay.specs.Replay.{opened_by, seal_memory, enter, registers_in, stop_at, step_stop, first_below, stop_of};
ghost use Rattle.seal_replay.specs.Replaying.{AreAlsoMarked, IsEvent, HasGone, HasEnded, IsReplayEnd};

use crate::entering::{open_pages, registers};
use crate::stop::ReplayStop;
use byte_cursor::WordList;
use claim_types::Exit;
use receipt_types::Seal;
use rv_isa::Fault;
use rv_step::{
    Bus, Core, DecodeTable, Event, OpenPages, PageMarks, RunLog, StepStop, WordTape, look,
    quick_steps, step,
};
use std::alloc::{AllocError, Global};

// Where a replay ended that nothing stopped.
#[derive(Drop)]
pub(crate) struct Replayed {
    // Whether its last step went or halted.
    pub exit: Exit,
    // The pc and the registers; a halt changes none.
    pub core: Core,
    // The open pages.
    pub pages: OpenPages,
    // What it said.
    pub log: RunLog,
}

// Marks the pages that the next step touches, where they are open.
fn mark_touched<B: Bus>(core: &Core, bus: &B, tape: &WordTape, marks: &mut PageMarks)
    requires { core.now.pc % 4 ≡ 0 }
    ensures size { length marks.new ≡ length marks.old }
    ensures marks { (log : Log) →
        first_closed (B.opens bus.now) (foot_of
        (state_at core.now (B.byte_at bus.now) tape.now
        log)) ≡ None → AreAlsoMarked marks.old marks.new (foot_of (state_at core.now (B.byte_at
        bus.now) tape.now log)) }
{
    let Ok(looked) = look(core, bus, tape) else {
        return;
    };
    marks.mark(looked.foot.pages());
}

// One step of a replay over the pages that are open, whose touched pages are marked.
fn replay_step<B: Bus>(
    number: u32,
    steps: u32,
    core: &mut Core,
    bus: &mut B,
    tape: &mut WordTape,
    log: &mut RunLog,
    marks: &mut PageMarks,
) -> Result<Event, ReplayStop>
    requires aligned { core.old.pc % 4 ≡ 0 }
    requires last { number < steps }
    ensures aligned { core.new.pc % 4 ≡ 0 }
    ensures same_pages { B.opens bus.new ≡ B.opens bus.old }
    ensures same_words { tape.new.words ≡ tape.old.words }
    ensures event { IfOk result
        (λ event. IsEvent (B.opens bus.old) steps number
        (state_at core.old (B.byte_at bus.old) tape.old log.old) (state_at core.new
        (B.byte_at bus.new) tape.new log.new) event) }
    ensures stop { IfErr result
        (λ stop. (stop ≡ Memory)
        ⊎ (stop_at (B.opens bus.old) steps number
        (state_at core.old (B.byte_at bus.old) tape.old log.old) ≡ Some stop)) }
    ensures size { length marks.new ≡ length marks.old }
    ensures marks { IfOk result
        (λ event. AreAlsoMarked marks.old marks.new
        (foot_of (state_at core.old (B.byte_at bus.old) tape.old log.old))) }
{
    mark_touched(core, bus, tape, marks);
    match step(core, bus, tape, log) {
        Ok(Event::Went) => Ok(Event::Went),
        Ok(Event::Halted(code)) => {
            if number + 1 == steps {
                Ok(Event::Halted(code))
            } else {
                Err(ReplayStop::EndsEarly { step: number })
            }
        }
        Err(StepStop::Miss(page)) => Err(ReplayStop::Unopened { step: number, page }),
        Err(StepStop::Fault(Fault::InputEnd)) => Err(ReplayStop::WordsShort { step: number }),
        Err(StepStop::Fault(fault)) => Err(ReplayStop::Fault {
            step: number,
            fault,
        }),
        Err(StepStop::Memory) => Err(ReplayStop::Memory),
    }
}

// Does the next steps in place, at most `room` of them, as long as each merely goes on in marked pages.
fn replay_quickly<B: Bus>(
    room: u32,
    core: &mut Core,
    bus: &mut B,
    marks: &PageMarks,
    table: &mut DecodeTable,
) -> u32
    requires aligned { core.old.pc % 4 ≡ 0 }
    requires open { (p : ℕ) → IsTrue (slice_index_or marks.now p false) →
        IsTrue (B.opens bus.old p) }
    ensures bound { result ≤ room }
    ensures went { (tape : Tape) (log : Log) →
        GoesQuickly (λ p. slice_index_or marks.now p false)
        (state_at core.old (B.byte_at bus.old) tape log) result (state_at core.new (B.byte_at
        bus.new) tape log) }
    ensures aligned { core.new.pc % 4 ≡ 0 }
    ensures same_pages { B.opens bus.new ≡ B.opens bus.old }
{
    quick_steps(core, bus, marks, table, u64::from(room)) as u32
}

// Does a seal's steps, and tells how they end.
fn run<B: Bus>(
    seal: &Seal,
    core: &mut Core,
    bus: &mut B,
    tape: &mut WordTape,
    log: &mut RunLog,
    marks: &mut PageMarks,
    table: &mut DecodeTable,
) -> Result<Exit, ReplayStop>
    requires aligned { core.old.pc % 4 ≡ 0 }
    requires opens { B.opens bus.old ≡ is_among (opened_by seal.now) }
    requires enters { enter seal.now ≡ state_at core.old (B.byte_at bus.old) tape.old log.old }
    requires size { (p : ℕ) → Contains (opened_by seal.now) p → p < length marks.old }
    requires unmarked { (p : ℕ) → slice_index_or marks.old p false ≡ false }
    ensures same_pages { B.opens bus.new ≡ B.opens bus.old }
    ensures ended { IfOk result
        (λ exit. HasEnded seal.now exit
        (state_at core.new (B.byte_at bus.new) tape.new log.new) marks.new) }
    ensures stop { IfErr result
        (λ stop. (stop ≡ Memory) ⊎ (first_below (step_stop seal.now) seal.now.steps ≡ Some stop)) }
{
    let mut number = 0;
    while number < seal.steps {
        number += replay_quickly(seal.steps - number, core, bus, marks, table);
        if number == seal.steps {
            break;
        }
        match replay_step(number, seal.steps, core, bus, tape, log, marks)? {
            Event::Went => number += 1,
            Event::Halted(code) => return Ok(Exit::Halted(code)),
        }
    }
    Ok(Exit::Split)
}

// The input words of a seal, as a tape.
fn tape_of(alloc: Global, words: &WordList) -> Result<WordTape, AllocError>
    ensures { IfOk result (λ tape. tape ≡ record { words = words.now.items; used = 0 }) }
{
    let mut copy = WordList::new(alloc);
    copy.extend(words.as_slice())?;
    Ok(WordTape::new(copy))
}

// Does a seal's steps over the pages that its tree opens, from the registers of the register page.
pub(crate) fn replay_to_end(alloc: Global, seal: &Seal) -> Result<Replayed, ReplayStop>
    requires aligned { seal.now.pc % 4 ≡ 0 }
    requires shape { IsPart HEIGHT seal.now.tree }
    ensures ended { IfOk result (λ replayed. IsReplayEnd seal.now replayed) }
    ensures stop { IfErr result (λ stop. (stop ≡ Memory) ⊎ (stop_of seal.now ≡ Some stop)) }
{
    let numbers = seal.tree.opened(alloc)?;
    let mut pages = open_pages(alloc, &seal.tree, numbers.as_slice())?;
    let mut core = Core {
        pc: seal.pc,
        regs: registers(&pages),
    };
    let mut tape = tape_of(alloc, &seal.words)?;
    let mut log = RunLog::new(alloc);
    let mut marks = PageMarks::new(alloc)?;
    let mut table = DecodeTable::new(alloc);
    table.fill()?;
    let exit = run(
        seal, &mut core, &mut pages, &mut tape, &mut log, &mut marks, &mut table,
    )?;
    let left = tape.rest().len();
    if left != 0 {
        return Err(ReplayStop::WordsLeft { count: left as u64 });
    }
    if let Some(page) = marks.first_unmarked(numbers.as_slice()) {
        return Err(ReplayStop::Idle { page });
    }
    Ok(Replayed {
        exit,
        core,
        pages,
        log,
    })
}
