ghost use Rattle.std.specs.Prelude.{◌≡◌, ◌≢◌, ◌+◌, ◌-◌, ◌%◌, ◌^◌, ◌<◌, ◌≤◌, ℕ, List, IsTrue, IsFalse, None, IfOk, OnOk, OnErr, IfSome, IfNone};
ghost use Rattle.page_core.specs.Images.{Image as PlainImage};
ghost use Rattle.page_core.specs.Memory.{top};
ghost use Rattle.page_core.specs.Memories.{page_of};
ghost use Rattle.elf_image.specs.Loaded.{image_of};
ghost use Rattle.rv_step.specs.Machine.{full, full_of, foot_of, step_cost, step_of};
ghost use Rattle.rv_step.specs.Stepping.{fault_in};
ghost use Rattle.page_core.specs.declared.sizes.TheConstants.{PAGES, REGISTER_PAGE};
ghost use Rattle.rv_step.specs.Quick.{GoesQuickly};
ghost use Rattle.rv_step.specs.Runs.{start, after};
ghost use Rattle.flat_machine.specs.Layers.{memory_in};
ghost use Rattle.flat_machine.specs.Going.{flat_state, went_steps, IsRunOf, DoesOne, DoesNone, DoesLast, IsRunEnd};

use crate::memory::FlatMemory;
use byte_cursor::{ByteList, WordList};
use elf_image::Image;
use host_calls::CallList;
use page_core::{Page, REGISTER_PAGE};
use rv_isa::Regs;
use rv_step::{
    AllPages, Core, DecodeTable, Event, Looked, Outcome, PageSet, RunLog, StepStop, WordTape, look,
    quick_steps, step_within,
};
use std::alloc::{AllocError, Global};
use std::marker::Model;

// The most that one step costs.
const MOST_CYCLES: u64 = 257;

/// The uncut run of an image and input words, and how far it is. Contracts see its state, how many steps it did, what
/// they cost, and the exit code if the last one halted; `IsRunOf` says that this is the run of an image and words.
///
/// A call that is refused for want of memory leaves it after some steps of the same run, and may be repeated.
#[derive(Drop)]
pub struct Flat {
    core: Core,
    memory: FlatMemory,
    tape: WordTape,
    log: RunLog,
    table: DecodeTable,
    steps: u64,
    cycles: u64,
    halted: Option<u32>,
    alloc: Global,
}

impl Model for Flat {
    ghost use Rattle.std.specs.Prelude.{take, drop};
    ghost use Rattle.flat_machine.specs.Going.{Going, IsUncut};

    ghost Value = { Going };

    ghost view = { λ f.
        record {
          pc = f.core.pc;
          x = f.core.regs;
          memory = f.memory;
          read = take f.tape.used f.tape.words;
          words = drop f.tape.used f.tape.words;
          journal = f.log.journal;
          calls = f.log.calls;
          steps = f.steps;
          cycles = f.cycles;
          halted = f.halted;
        } };

    ghost invariant = { λ f.
        IsUncut
        (record {
          pc = f.core.pc;
          x = f.core.regs;
          memory = f.memory;
          read = take f.tape.used f.tape.words;
          words = drop f.tape.used f.tape.words;
          journal = f.log.journal;
          calls = f.log.calls;
          steps = f.steps;
          cycles = f.cycles;
          halted = f.halted;
        }) };
}

// Writes the words of x1 to x31 into the register page of a memory.
fn write_registers(page: &mut Page, regs: Regs)
    ensures { (m : ℕ → ℕ) → page.old ≡ page_of m REGISTER_PAGE →
        page.new ≡ page_of (full_of m regs) REGISTER_PAGE }
{
    for n in 1..32u8 {
        page.put(4 * n as usize, &regs.get(n).to_le_bytes());
    }
}

impl Flat {
    /// The run of an image and input words, at its start. It takes no memory.
    pub fn new(alloc: Global, image: Image, words: WordList) -> Flat
        ensures start { result.steps ≡ 0 }
        ensures stands { IsRunOf result (image_of image) words.items }
    {
        let memory = FlatMemory::new(alloc, image.map);
        Flat::begun(alloc, image.entry, memory, words)
    }

    // The run from an entry over a memory that is zero from the register page on, at its start. It takes no memory.
    fn begun(alloc: Global, entry: u32, memory: FlatMemory, words: WordList) -> Flat
        requires aligned { entry % 4 ≡ 0 }
        requires rest { (a : ℕ) → top ≤ a → memory_in memory a ≡ 0 }
        ensures start { result.steps ≡ 0 }
        ensures stands { (image : PlainImage) → image.entry ≡ entry →
            ((a : ℕ) → memory_in memory a ≡ image.memory a) → IsRunOf result image words.items }
    {
        Flat {
            core: Core {
                pc: entry,
                regs: Regs::new(),
            },
            memory,
            tape: WordTape::new(words),
            log: RunLog::new(alloc),
            table: DecodeTable::new(alloc),
            steps: 0,
            cycles: 0,
            halted: None,
            alloc,
        }
    }

    /// The run of an image, which is copied, and input words, at its start. An AllocError is want of memory.
    pub fn copying(alloc: Global, image: &Image, words: WordList) -> Result<Flat, AllocError>
        ensures start { IfOk result (λ flat. flat.steps ≡ 0) }
        ensures stands { IfOk result (λ flat. IsRunOf flat (image_of image.now) words.items) }
    {
        let memory = FlatMemory::copy_of(alloc, &image.map)?;
        Ok(Flat::begun(alloc, image.entry, memory, words))
    }

    /// Runs to the outcome under a limit on the cost of all steps from the start, which the steps so far keep. After an
    /// outcome it answers the same for the same limit, and goes on from OverLimit for a greater one.
    pub fn run(&mut self, limit: u64) -> Result<Outcome, AllocError>
        requires { self.old.cycles ≤ limit }
        ensures stands { (image : PlainImage) (words : List ℕ) → IsRunOf self.old image words →
            IsRunOf self.new image words }
        ensures outcome { IfOk result
            (λ outcome. (image : PlainImage) (words : List ℕ) → IsRunOf self.old image words →
            IsRunEnd self.new image words limit outcome) }
        ensures within { self.new.cycles ≤ limit }
        ensures more { self.old.steps ≤ self.new.steps }
    {
        self.lift()?;
        loop {
            let room = limit - self.cycles;
            self.go_quickly(&AllPages, room);
            if let Some(outcome) = self.step(limit)? {
                return Ok(outcome);
            }
        }
    }

    /// Copies the image's pages to where a step finds them without a search, and makes room for decoded words. No state
    /// changes by it, with Ok or with a refusal.
    pub fn lift(&mut self) -> Result<(), AllocError>
        ensures stands { (image : PlainImage) (words : List ℕ) → IsRunOf self.old image words →
            IsRunOf self.new image words }
        ensures same { DoesNone self.old self.new }
    {
        self.memory.lift_pages()?;
        self.table.fill()
    }

    /// Does the next steps in place, at most `room` of them, as long as each merely goes on, costs 1, takes no memory and
    /// touches pages of the set alone, and tells how many it did. Fewer than `room` say nothing of the step that comes
    /// next. After a halt it does none.
    pub fn go_quickly<P: PageSet>(&mut self, pages: &P, room: u64) -> u64
        requires pages { (page : ℕ) → IsTrue (P.holds pages.now page) → page < PAGES }
        requires room { self.old.cycles + room < 2 ^ 64 }
        ensures stands { (image : PlainImage) (words : List ℕ) → IsRunOf self.old image words →
            IsRunOf self.new image words }
        ensures bound { result ≤ room }
        ensures went { GoesQuickly (P.holds pages.now) (flat_state self.old) result
            (flat_state self.new) }
        ensures steps { self.new.steps ≡ self.old.steps + result }
        ensures cycles { self.new.cycles ≡ self.old.cycles + result }
        ensures halted { self.new.halted ≡ self.old.halted }
    {
        if self.halted.is_some() {
            return 0;
        }
        let done = quick_steps(
            &mut self.core,
            &mut self.memory,
            pages,
            &mut self.table,
            room,
        );
        self.steps += done;
        self.cycles += done;
        done
    }

    /// What the next step touches and costs, and the fault that it ends with, if any, without doing it, as long as no step
    /// has halted. It takes no memory.
    pub fn look(&self) -> Looked
        ensures foot { result.foot ≡ foot_of (flat_state self.now) }
        ensures cost { result.cost ≡ step_cost (flat_state self.now) }
        ensures fault { result.fault ≡ fault_in (step_of (flat_state self.now)) }
    {
        match look(&self.core, &self.memory, &self.tape) {
            Ok(looked) => looked,
            Err(_) => unreachable!(),
        }
    }

    /// Does the next step within a limit on the cost of all steps from the start, which the steps so far keep, or tells
    /// the outcome: that of a step that halts, which is done, or that faults or costs too much, which isn't.
    pub fn step(&mut self, limit: u64) -> Result<Option<Outcome>, AllocError>
        requires { self.old.cycles ≤ limit }
        ensures stands { (image : PlainImage) (words : List ℕ) → IsRunOf self.old image words →
            IsRunOf self.new image words }
        ensures within { self.new.cycles ≤ limit }
        ensures went { IfOk result
            (λ ended. IfNone ended
            ((self.old.halted ≡ None) × (self.new.halted ≡ None) × DoesOne self.old self.new)) }
        ensures ended { IfOk result
            (λ ended. IfSome ended
            (λ outcome. (image : PlainImage) (words : List ℕ) → IsRunOf self.old image words →
            IsRunEnd self.new image words limit outcome)) }
        ensures last { IfOk result
            (λ ended. IfSome ended
            (λ outcome. self.old.halted ≡ None → DoesLast self.old self.new outcome)) }
        ensures more { self.old.steps ≤ self.new.steps }
        ensures refused { OnErr result (DoesNone self.old self.new) }
    {
        if let Some(code) = self.halted {
            return Ok(Some(Outcome::Halted(code)));
        }
        let room = limit - self.cycles;
        match step_within(
            &mut self.core,
            &mut self.memory,
            &mut self.tape,
            &mut self.log,
            room,
        ) {
            Ok(Some(paid)) => {
                self.steps += 1;
                self.cycles += u64::from(paid.cost);
                match paid.event {
                    Event::Went => Ok(None),
                    Event::Halted(code) => {
                        self.halted = Some(code);
                        Ok(Some(Outcome::Halted(code)))
                    }
                }
            },
            Ok(None) => Ok(Some(Outcome::OverLimit { step: self.steps })),
            Err(StepStop::Fault(fault)) => Ok(Some(Outcome::Faulted {
                fault,
                pc: self.core.pc,
                step: self.steps,
            })),
            Err(StepStop::Memory) => Err(AllocError),
            Err(StepStop::Miss(_)) => unreachable!(),
        }
    }

    /// Does the next steps as long as they go, at most `steps` of them, with no limit on their cost, and tells how many
    /// it did. A step that halts or faults isn't done by it; after a halt it does none. Without memory it has done some of
    /// these steps.
    pub fn go(&mut self, steps: u64) -> Result<u64, AllocError>
        requires { self.old.steps + steps ≤ 2 ^ 48 }
        ensures stands { (image : PlainImage) (words : List ℕ) → IsRunOf self.old image words →
            IsRunOf self.new image words }
        ensures done { IfOk result (λ done. self.new.steps ≡ self.old.steps + done) }
        ensures more { self.old.steps ≤ self.new.steps }
        ensures bound { self.new.steps ≤ self.old.steps + steps }
        ensures most { IfOk result
            (λ done. done < steps → (image : PlainImage) (words : List ℕ) →
            IsRunOf self.old image words → after (start image words) (went_steps self.new
            + 1) ≡ None) }
        ensures halted { self.new.halted ≡ self.old.halted }
    {
        self.lift()?;
        let mut left = steps;
        loop {
            let room = left.min(u64::MAX - self.cycles);
            left -= self.go_quickly(&AllPages, room);
            if left == 0 {
                return Ok(steps);
            }
            if !self.go_on()? {
                return Ok(steps - left);
            }
            left -= 1;
        }
    }

    // Does the next step, if it goes, and tells whether it did.
    fn go_on(&mut self) -> Result<bool, AllocError>
        requires { self.old.steps < 2 ^ 48 }
        ensures stands { (image : PlainImage) (words : List ℕ) → IsRunOf self.old image words →
            IsRunOf self.new image words }
        ensures went { IfOk result (λ went. IsTrue went → self.new.steps ≡ self.old.steps + 1) }
        ensures stays { IfOk result (λ went. IsFalse went → (self.new.steps ≡ self.old.steps)
            × ((image : PlainImage) (words : List ℕ) → IsRunOf self.old image words →
            after (start image words) (went_steps self.new + 1) ≡ None)) }
        ensures refused { OnErr result (self.new.steps ≡ self.old.steps) }
        ensures halted { self.new.halted ≡ self.old.halted }
    {
        if self.halted.is_some() {
            return Ok(false);
        }
        match step_within(
            &mut self.core,
            &mut self.memory,
            &mut self.tape,
            &mut self.log,
            MOST_CYCLES,
        ) {
            Ok(Some(paid)) => match paid.event {
                Event::Went => {
                    self.steps += 1;
                    self.cycles += u64::from(paid.cost);
                    Ok(true)
                }
                Event::Halted(_) => Ok(false),
            },
            Ok(None) => unreachable!(),
            Err(StepStop::Fault(_)) => Ok(false),
            Err(StepStop::Memory) => Err(AllocError),
            Err(StepStop::Miss(_)) => unreachable!(),
        }
    }

    /// The pc of the state that it is in.
    pub fn pc(&self) -> u32
        ensures { result ≡ self.now.pc }
    {
        self.core.pc
    }

    /// A copy of the page with this number, of the memory of the state that it is in with the registers in the register
    /// page. It takes no memory.
    pub fn full_page(&self, number: u32) -> Page
        requires { number < PAGES }
        ensures { result ≡ page_of (full (flat_state self.now)) number }
    {
        let mut page = Page::of(self.memory.bytes_of(number));
        if number == REGISTER_PAGE {
            write_registers(&mut page, self.core.regs);
        }
        page
    }

    /// The input words that it has read.
    pub fn read(&self) -> &[u32]
        ensures { result.now ≡ self.now.read }
    {
        self.tape.taken()
    }

    /// What it has written to its journal.
    pub fn journal(&self) -> &ByteList
        ensures { result.now.items ≡ self.now.journal }
    {
        &self.log.journal
    }

    /// The assumptions that it has called for, in their order.
    pub fn calls(&self) -> &CallList
        ensures { result.now.items ≡ self.now.calls }
    {
        &self.log.calls
    }

    /// How many steps it did, the one that halts among them.
    pub fn steps(&self) -> u64
        ensures { result ≡ self.now.steps }
    {
        self.steps
    }

    /// What they cost.
    pub fn cycles(&self) -> u64
        ensures { result ≡ self.now.cycles }
    {
        self.cycles
    }
}
