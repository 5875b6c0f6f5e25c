//! Uncut runs of guests, and the cuts of runs.

use crate::images::image_in;
use crate::lines::Lines;
use crate::machine::words_in;
use crate::shelf::Shelf;
use crate::stop::RowStop;
use crate::words::{decimal, hexadecimal};
use digest_core::WeakDigester;
use executor::{Cut, Executor, Limits, Next};
use flat_machine::Flat;
use std::alloc::{AllocError, Global};

/// Makes calls of the uncut run of a guest on the words of a file, and adds what each answers, and where the run then is.
pub(crate) fn flat_calls(
    alloc: Global,
    shelf: &Shelf,
    out: &mut Lines,
    words: &[&str],
) -> Result<(), RowStop> {
    let [elf, input, calls @ ..] = words else {
        return Err(RowStop::NoRow);
    };
    let mut flat = flat_of(alloc, shelf, elf, input)?;
    for call in calls {
        add_flat(alloc, out, &mut flat, call)?;
    }
    Ok(())
}

fn flat_of(alloc: Global, shelf: &Shelf, elf: &str, input: &str) -> Result<Flat, RowStop> {
    let words = words_in(alloc, shelf.bytes(input)?)?;
    Ok(Flat::new(alloc, image_in(alloc, shelf, elf)?, words))
}

// Makes a call, and adds what it answers, and how far the run is.
fn add_flat(alloc: Global, out: &mut Lines, flat: &mut Flat, call: &str) -> Result<(), RowStop> {
    let answer = flat_call(alloc, flat, call)?;
    let (pc, steps, cycles) = (flat.pc(), flat.steps(), flat.cycles());
    let read = flat.read();
    out.add(format_args!(
        "{call} {answer}; at {pc:08x} steps {steps} cycles {cycles} read {read:?}"
    ))
}

// Makes a call, and tells what it answers.
fn flat_call(alloc: Global, flat: &mut Flat, call: &str) -> Result<String, RowStop> {
    let Some((kind, number)) = call.split_once(':') else {
        return plain_call(alloc, flat, call);
    };
    match kind {
        "run" => run_text(alloc, flat, decimal(number)? as u64),
        "step" => step_text(alloc, flat, decimal(number)? as u64),
        "go" => go_text(alloc, flat, decimal(number)? as u64),
        "word" => word_text(alloc, flat, hexadecimal(number)?),
        _ => Err(RowStop::NoRow),
    }
}

// Makes a call without a number.
fn plain_call(alloc: Global, flat: &mut Flat, call: &str) -> Result<String, RowStop> {
    match call {
        "look" => Ok(look_text(alloc, flat)?),
        "lift" => {
            flat.lift()?;
            Ok(String::from_str(alloc, "done")?)
        }
        _ => Err(RowStop::NoRow),
    }
}

// The outcome under a limit.
fn run_text(alloc: Global, flat: &mut Flat, limit: u64) -> Result<String, RowStop> {
    if flat.cycles() > limit {
        return Err(RowStop::NoRow);
    }
    let outcome = flat.run(limit)?;
    Ok(format!(in alloc; "{outcome:?}")?)
}

// What the next step comes to under a limit.
fn step_text(alloc: Global, flat: &mut Flat, limit: u64) -> Result<String, RowStop> {
    if flat.cycles() > limit {
        return Err(RowStop::NoRow);
    }
    match flat.step(limit)? {
        Some(outcome) => Ok(format!(in alloc; "{outcome:?}")?),
        None => Ok(String::from_str(alloc, "went")?),
    }
}

// How many steps are done of so many.
fn go_text(alloc: Global, flat: &mut Flat, steps: u64) -> Result<String, RowStop> {
    if flat.steps() > 0xFFFF_FFFF || steps > 0xFFFF_FFFF {
        return Err(RowStop::NoRow);
    }
    let done = flat.go(steps)?;
    Ok(format!(in alloc; "{done}")?)
}

// What the next step touches and costs.
fn look_text(alloc: Global, flat: &Flat) -> Result<String, AllocError> {
    let looked = flat.look();
    let (pages, cost) = (looked.foot.pages(), looked.cost);
    format!(in alloc; "pages {pages:?} cost {cost}")
}

// The word of memory at an address, the registers being in the register page.
fn word_text(alloc: Global, flat: &Flat, address: u32) -> Result<String, RowStop> {
    if address % 4 != 0 || address >= 0x1000_0000 {
        return Err(RowStop::NoRow);
    }
    let page = flat.full_page(address / 1024);
    let bytes = page.bytes();
    let at = (address % 1024) as usize;
    let word = u32::from_le_bytes([bytes[at], bytes[at + 1], bytes[at + 2], bytes[at + 3]]);
    Ok(format!(in alloc; "{word:08x}")?)
}

// The cuts of the run of an ELF file on an input file: `run` names both, and then the three limits.
fn executor_of(
    alloc: Global,
    shelf: &Shelf,
    run: &[&str],
) -> Result<Executor<WeakDigester>, RowStop> {
    let [elf, input, limits @ ..] = run else {
        return Err(RowStop::NoRow);
    };
    let limits = limits_of(limits)?;
    let words = words_in(alloc, shelf.bytes(input)?)?;
    Ok(Executor::new(alloc, image_in(alloc, shelf, elf)?, words, limits)?)
}

fn limits_of(words: &[&str]) -> Result<Limits, RowStop> {
    let [cycles, pages, limit] = words else {
        return Err(RowStop::NoRow);
    };
    match Limits::new(decimal(cycles)?, decimal(pages)?, decimal(limit)? as u64) {
        Some(limits) => Ok(limits),
        None => Err(RowStop::NoRow),
    }
}

/// Adds the cuts of a run, and how it ends, twice.
pub(crate) fn add_cuts(
    alloc: Global,
    shelf: &Shelf,
    out: &mut Lines,
    run: &[&str],
) -> Result<(), RowStop> {
    let mut executor = executor_of(alloc, shelf, run)?;
    for _ in 0..65_536u32 {
        if !add_next(alloc, out, &mut executor)? {
            break;
        }
    }
    let _is_cut = add_next(alloc, out, &mut executor)?;
    Ok(())
}

/// Adds how many cuts a run has, and how it ends.
pub(crate) fn count_cuts(
    alloc: Global,
    shelf: &Shelf,
    out: &mut Lines,
    run: &[&str],
) -> Result<(), RowStop> {
    let mut executor = executor_of(alloc, shelf, run)?;
    add_count(alloc, out, &mut executor)
}

fn add_count(
    alloc: Global,
    out: &mut Lines,
    executor: &mut Executor<WeakDigester>,
) -> Result<(), RowStop> {
    let count = cuts_left(executor)?;
    out.add(format_args!("{count} cuts"))?;
    let _is_cut = add_next(alloc, out, executor)?;
    Ok(())
}

fn cuts_left(executor: &mut Executor<WeakDigester>) -> Result<u32, RowStop> {
    for count in 0..65_536u32 {
        match executor.next()? {
            Next::Cut(_) => {}
            _ => return Ok(count),
        }
    }
    Ok(65_536)
}

// Adds what comes next, and tells whether it is a cut.
fn add_next(
    alloc: Global,
    out: &mut Lines,
    executor: &mut Executor<WeakDigester>,
) -> Result<bool, RowStop> {
    let next = executor.next()?;
    add_cut_or_end(alloc, out, &next)?;
    Ok(is_cut(&next))
}

fn add_cut_or_end(
    alloc: Global,
    out: &mut Lines,
    next: &Next<WeakDigester>,
) -> Result<(), RowStop> {
    match next {
        Next::Cut(cut) => add_cut(alloc, out, cut),
        Next::Ended(outcome) => out.add(format_args!("{outcome:?}")),
        Next::TooManySeals => out.add("too many seals"),
    }
}

fn is_cut(next: &Next<WeakDigester>) -> bool {
    matches!(next, Next::Cut(_))
}

// Adds a cut: its number, the pc, the steps, the words and the open pages of its seal.
fn add_cut(alloc: Global, out: &mut Lines, cut: &Cut<WeakDigester>) -> Result<(), RowStop> {
    let number = cut.number();
    let seal = cut.open()?;
    let opened = seal.tree.opened(alloc)?;
    let (pc, steps, words) = (seal.pc, seal.steps, seal.words.as_slice());
    let pages = opened.as_slice();
    out.add(format_args!(
        "cut {number} from {pc:08x} of {steps} steps, words {words:?}, pages {pages:?}"
    ))
}
