//! Host calls, footprints and meters.

use crate::lines::Lines;
use crate::stop::RowStop;
use crate::words::{decimal, hexadecimal, split_at_mark};
use host_calls::{Foot, Meter, cost, read_call};
use rv_isa::Regs;
use std::alloc::Global;

/// Adds the host call that registers name and its cost, or its fault.
pub(crate) fn read_registers(out: &mut Lines, settings: &[&str]) -> Result<(), RowStop> {
    let mut regs = Regs::new();
    for setting in settings {
        let (key, value) = split_at_mark(setting, '=')?;
        set_register(&mut regs, key, value)?;
    }
    add_call(out, &regs)
}

fn add_call(out: &mut Lines, regs: &Regs) -> Result<(), RowStop> {
    match read_call(regs) {
        Ok(call) => {
            let cost = cost(&call);
            out.add(format_args!("{call:?} costs {cost}"))
        }
        Err(fault) => out.add(format_args!("{fault:?}")),
    }
}

/// Puts a word into the register that a key names, as `x17`.
pub(crate) fn set_register(regs: &mut Regs, key: &str, value: &str) -> Result<(), RowStop> {
    let Some(number) = key.strip_prefix('x') else {
        return Err(RowStop::NoRow);
    };
    let number = decimal(number)?;
    if number >= 32 {
        return Err(RowStop::NoRow);
    }
    regs.set(number as u8, hexadecimal(value)?);
    Ok(())
}

/// Adds the footprint of a step without a code page, or with one and after each page of data that is added.
pub(crate) fn grow_foot(out: &mut Lines, pages: &[&str]) -> Result<(), RowStop> {
    let Some((code, pages)) = pages.split_first() else {
        return add_foot(out, &Foot::of_registers());
    };
    add_feet(out, Foot::of_code(decimal(code)?), pages)
}

// Adds a footprint, and what it is after each page of data that is added.
fn add_feet(out: &mut Lines, mut foot: Foot, pages: &[&str]) -> Result<(), RowStop> {
    add_foot(out, &foot)?;
    for page in pages {
        add_page(&mut foot, page)?;
        add_foot(out, &foot)?;
    }
    Ok(())
}

fn add_foot(out: &mut Lines, foot: &Foot) -> Result<(), RowStop> {
    let pages = foot.pages();
    out.add(format_args!("{pages:?}"))
}

// Adds a page of data to a footprint that has room for it.
fn add_page(foot: &mut Foot, page: &str) -> Result<(), RowStop> {
    let count = foot.pages().len();
    if count < 2 || count >= 6 {
        return Err(RowStop::NoRow);
    }
    foot.add(decimal(page)?);
    Ok(())
}

/// Adds whether each step fits a meter with these limits, and the pages that are touched after it. A step is
/// `COST:CODE,PAGE...`.
pub(crate) fn meter_steps(alloc: Global, out: &mut Lines, words: &[&str]) -> Result<(), RowStop> {
    let [cycles, pages, words @ ..] = words else {
        return Err(RowStop::NoRow);
    };
    let (cycles, pages) = (decimal(cycles)?, decimal(pages)?);
    meter_words(out, Meter::new(alloc, cycles, pages), words)
}

fn meter_words(out: &mut Lines, mut meter: Meter, words: &[&str]) -> Result<(), RowStop> {
    for word in words {
        add_metered(out, &mut meter, word)?;
    }
    Ok(())
}

// Does what a word says, and adds what it comes to.
fn add_metered(out: &mut Lines, meter: &mut Meter, word: &str) -> Result<(), RowStop> {
    let answer = meter_word(meter, word)?;
    let pages = meter.pages();
    out.add(format_args!("{word} {answer} {pages:?}"))
}

fn meter_word(meter: &mut Meter, word: &str) -> Result<&'static str, RowStop> {
    match word {
        "clear" => Ok(clear(meter)),
        "reserve" => reserve(meter),
        step => meter_step(meter, step),
    }
}

fn clear(meter: &mut Meter) -> &'static str {
    meter.clear();
    "done"
}

fn reserve(meter: &mut Meter) -> Result<&'static str, RowStop> {
    meter.reserve()?;
    Ok("done")
}

fn meter_step(meter: &mut Meter, step: &str) -> Result<&'static str, RowStop> {
    let (cost, pages) = split_at_mark(step, ':')?;
    let cost = decimal(cost)?;
    add_fitting(meter, &foot_of(pages)?, cost)
}

// Adds a step where it fits.
fn add_fitting(meter: &mut Meter, foot: &Foot, cost: u32) -> Result<&'static str, RowStop> {
    if !meter.fits(foot, cost) {
        return Ok("doesn't fit");
    }
    meter.add(foot, cost)?;
    Ok("fits")
}

// The footprint of these pages, the first of which has the code.
fn foot_of(text: &str) -> Result<Foot, RowStop> {
    match text.split_once(',') {
        Some((code, data)) => foot_with(decimal(code)?, data),
        None => Ok(Foot::of_code(decimal(text)?)),
    }
}

// The footprint of a page of code and of these pages of data.
fn foot_with(code: u32, data: &str) -> Result<Foot, RowStop> {
    let mut foot = Foot::of_code(code);
    for page in data.split(',') {
        add_page(&mut foot, page)?;
    }
    Ok(foot)
}
