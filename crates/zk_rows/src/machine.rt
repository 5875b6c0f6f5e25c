//! Steps of a machine that a row describes.

use crate::calls::set_register;
use crate::lines::{Hex, Lines};
use crate::pages::page_of;
use crate::shelf::Shelf;
use crate::stop::RowStop;
use crate::words::{decimal, hexadecimal};
use byte_cursor::WordList;
use host_calls::AssumeCall;
use page_core::{PAGES, Page};
use rv_isa::Regs;
use rv_step::{Core, Event, OpenPages, RunLog, StepStop, WordTape, look, step, step_within};
use std::alloc::{AllocError, Global};

// The whole of what a step takes.
#[derive(Drop)]
struct Machine {
    core: Core,
    pages: OpenPages,
    tape: WordTape,
    log: RunLog,
}

impl Machine {
    // No open page, the pc 0x1000, registers of zero and no input.
    fn new(alloc: Global) -> Machine {
        Machine {
            core: Core {
                pc: 0x1000,
                regs: Regs::new(),
            },
            pages: OpenPages::new(alloc),
            tape: WordTape::new(WordList::new(alloc)),
            log: RunLog::new(alloc),
        }
    }

    // Such a machine, but for these settings.
    fn with(alloc: Global, shelf: &Shelf, settings: &[&str]) -> Result<Machine, RowStop> {
        let mut machine = Machine::new(alloc);
        for setting in settings {
            machine.set(alloc, shelf, setting)?;
        }
        Ok(machine)
    }

    // `pc=ADDRESS`, `x17=WORD`, `input=NAME`, `4=NAME`: page 4 begins with the bytes of a file; `5`: page 5 is of zeros.
    fn set(&mut self, alloc: Global, shelf: &Shelf, setting: &str) -> Result<(), RowStop> {
        let Some((key, value)) = setting.split_once('=') else {
            return self.open(decimal(setting)?, &[]);
        };
        match key {
            "pc" => self.set_pc(value),
            "input" => self.set_input(alloc, shelf.bytes(value)?),
            _ => self.set_other(shelf, key, value),
        }
    }

    fn set_pc(&mut self, value: &str) -> Result<(), RowStop> {
        self.core.pc = hexadecimal(value)?;
        Ok(())
    }

    fn set_input(&mut self, alloc: Global, bytes: &[u8]) -> Result<(), RowStop> {
        self.tape = WordTape::new(words_in(alloc, bytes)?);
        Ok(())
    }

    // A register or a page.
    fn set_other(&mut self, shelf: &Shelf, key: &str, value: &str) -> Result<(), RowStop> {
        if key.starts_with('x') {
            return set_register(&mut self.core.regs, key, value);
        }
        self.open(decimal(key)?, shelf.bytes(value)?)
    }

    // Opens a page that begins with these bytes.
    fn open(&mut self, number: u32, bytes: &[u8]) -> Result<(), RowStop> {
        if number >= PAGES {
            return Err(RowStop::NoRow);
        }
        Ok(self.pages.open(number, &page_of(bytes)?)?)
    }

    // Does the next step.
    fn step(&mut self) -> Result<Result<Event, StepStop>, RowStop> {
        if self.core.pc % 4 != 0 {
            return Err(RowStop::NoRow);
        }
        Ok(step(
            &mut self.core,
            &mut self.pages,
            &mut self.tape,
            &mut self.log,
        ))
    }
}

/// The words that bytes spell, little-endian.
pub(crate) fn words_in(alloc: Global, bytes: &[u8]) -> Result<WordList, AllocError> {
    let mut words = WordList::new(alloc);
    for four in bytes.chunks(4) {
        if let [first, second, third, fourth] = four {
            words.push(u32::from_le_bytes([*first, *second, *third, *fourth]))?;
        }
    }
    Ok(words)
}

// Which steps a machine does.
#[derive(Clone, Copy)]
enum Steps {
    // One, after `look`.
    Once,
    // So many. A page that is missed is opened, of zeros.
    Often(u32),
    // One within this room.
    Within(u32),
}

/// Adds what `look` tells of the next step of a machine, what the step comes to, and what it changed.
pub(crate) fn step_once(
    alloc: Global,
    shelf: &Shelf,
    out: &mut Lines,
    settings: &[&str],
) -> Result<(), RowStop> {
    add_machine(alloc, shelf, out, Steps::Once, settings)
}

/// Does so many steps of a machine, and adds what each came to, and what they changed. A page that is missed is opened, of
/// zeros.
pub(crate) fn step_often(
    alloc: Global,
    shelf: &Shelf,
    out: &mut Lines,
    words: &[&str],
) -> Result<(), RowStop> {
    let [count, settings @ ..] = words else {
        return Err(RowStop::NoRow);
    };
    add_machine(alloc, shelf, out, Steps::Often(decimal(count)?), settings)
}

/// Adds what the next step of a machine comes to within this room, and what it changed.
pub(crate) fn step_in(
    alloc: Global,
    shelf: &Shelf,
    out: &mut Lines,
    words: &[&str],
) -> Result<(), RowStop> {
    let [room, settings @ ..] = words else {
        return Err(RowStop::NoRow);
    };
    add_machine(alloc, shelf, out, Steps::Within(decimal(room)?), settings)
}

// Has a machine do these steps, and adds what they come to, and what they changed.
fn add_machine(
    alloc: Global,
    shelf: &Shelf,
    out: &mut Lines,
    steps: Steps,
    settings: &[&str],
) -> Result<(), RowStop> {
    let mut machine = Machine::with(alloc, shelf, settings)?;
    do_steps(out, &mut machine, steps)?;
    add_changes_since(alloc, shelf, out, &machine, settings)
}

// Adds where a machine differs from the one of these settings.
fn add_changes_since(
    alloc: Global,
    shelf: &Shelf,
    out: &mut Lines,
    machine: &Machine,
    settings: &[&str],
) -> Result<(), RowStop> {
    let made = Machine::with(alloc, shelf, settings)?;
    add_changes(alloc, out, machine, &made)
}

fn do_steps(out: &mut Lines, machine: &mut Machine, steps: Steps) -> Result<(), RowStop> {
    match steps {
        Steps::Once => {
            add_look(out, machine)?;
            add_step(out, machine)
        }
        Steps::Often(count) => add_steps(out, machine, count),
        Steps::Within(room) => add_step_within(out, machine, room),
    }
}

// Adds what `look` tells of the next step.
fn add_look(out: &mut Lines, machine: &Machine) -> Result<(), RowStop> {
    if machine.core.pc % 4 != 0 {
        return Err(RowStop::NoRow);
    }
    match look(&machine.core, &machine.pages, &machine.tape) {
        Ok(looked) => {
            let pages = looked.foot.pages();
            let (cost, fault) = (looked.cost, looked.fault);
            out.add(format_args!("look {pages:?} {cost} {fault:?}"))
        }
        Err(page) => out.add(format_args!("look misses {page}")),
    }
}

// Does and adds a step.
fn add_step(out: &mut Lines, machine: &mut Machine) -> Result<(), RowStop> {
    let answer = machine.step()?;
    out.add(format_args!("step {answer:?}"))
}

fn add_steps(out: &mut Lines, machine: &mut Machine, count: u32) -> Result<(), RowStop> {
    for _ in 0..count {
        add_next(out, machine)?;
    }
    Ok(())
}

// Does and adds a step, and opens the page that it misses.
fn add_next(out: &mut Lines, machine: &mut Machine) -> Result<(), RowStop> {
    let answer = machine.step()?;
    let x10 = machine.core.regs.get(10);
    out.add(format_args!("step {answer:?} x10 {x10:08x}"))?;
    match answer {
        Err(StepStop::Miss(page)) => machine.open(page, &[]),
        _ => Ok(()),
    }
}

// Does and adds a step within this room.
fn add_step_within(out: &mut Lines, machine: &mut Machine, room: u32) -> Result<(), RowStop> {
    if machine.core.pc % 4 != 0 {
        return Err(RowStop::NoRow);
    }
    let answer = step_within(
        &mut machine.core,
        &mut machine.pages,
        &mut machine.tape,
        &mut machine.log,
        room as u64,
    );
    out.add(format_args!("step {answer:?}"))
}

// Adds where a machine differs from another.
fn add_changes(
    alloc: Global,
    out: &mut Lines,
    machine: &Machine,
    made: &Machine,
) -> Result<(), RowStop> {
    out.add(place_text(alloc, machine, made)?.as_str())?;
    add_log(out, &machine.log)?;
    for number in 0u32..PAGES {
        if let (Some(page), Some(other)) = (machine.pages.page(number), made.pages.page(number)) {
            add_page(out, number, page, other)?;
        }
    }
    Ok(())
}

// The pc, the words of the input that were taken, and the registers that differ.
fn place_text(alloc: Global, machine: &Machine, made: &Machine) -> Result<String, AllocError> {
    let (pc, used) = (machine.core.pc, machine.tape.used());
    let mut text = format!(in alloc; "at {pc:08x} used {used}")?;
    for number in 0u8..32 {
        let value = machine.core.regs.get(number);
        if value != made.core.regs.get(number) {
            write!(text, " x{number} {value:08x}")?;
        }
    }
    Ok(text)
}

fn add_log(out: &mut Lines, log: &RunLog) -> Result<(), RowStop> {
    if log.journal.len() > 0 {
        let digits = Hex(log.journal.as_slice());
        out.add(format_args!("journal\n{digits}"))?;
    }
    for call in log.calls.as_slice() {
        add_call(out, call)?;
    }
    Ok(())
}

fn add_call(out: &mut Lines, call: &AssumeCall) -> Result<(), RowStop> {
    let image = Hex(call.image.bytes().as_slice());
    let journal = Hex(call.journal.bytes().as_slice());
    out.add(format_args!("assumes\n{image}\n{journal}"))
}

// Adds the words of a page that were changed.
fn add_page(out: &mut Lines, number: u32, page: &Page, other: &Page) -> Result<(), RowStop> {
    for at in 0..256usize {
        let word = &page.bytes()[4 * at..4 * at + 4];
        if word != &other.bytes()[4 * at..4 * at + 4] {
            let digits = Hex(word);
            out.add(format_args!("page {number} word {at} {digits}"))?;
        }
    }
    Ok(())
}
