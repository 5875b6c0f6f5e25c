//! Runs the cases of its rows: each is a line that names files and the words of a command, which the public calls answer
//! over a desk and a sink in memory. It prints each command, its lines, its status, and the files that were written.
//! docs/ROWS.md has the language.
#![tactic(auto)]

mod audits;
mod calls;
mod digests;
mod elf;
mod fields;
mod files;
mod images;
mod isa;
mod layers;
mod lines;
mod machine;
mod measures;
mod memory_tree;
mod pages;
mod pieces;
mod receipts;
mod running;
mod runs;
mod shelf;
mod stop;
mod tree;
mod words;

use crate::layers::layer_row;
use crate::lines::{Hex, Lines};
use crate::measures::{add_since, now};
use crate::pieces::bytes_of;
use crate::running::{Faults, run};
use crate::shelf::{Kept, Shelf};
use crate::stop::RowStop;
use crate::words::decimal;
use outside::{DirDesk, read_all};
use std::alloc::Global;
use std::rt::Files;
use std::sync::Wait;
use std::thread::Threads;
use std::time::Clock;
use std::{env, io, str};

// The rows that stand in the files of these names are one list.
fn main(rt: HostRuntime) -> io::Result<()> {
    let mut shelf = Shelf::new(rt.alloc());
    for name in env::args(&rt)?.skip(1) {
        if !do_file(&rt, &mut shelf, name.as_str())? {
            break;
        }
    }
    Ok(())
}

// Does the rows of a file, and tells whether more can be done.
fn do_file<R: Threads + Wait + Sync + Files + Clock + Print + AllocGlobal>(
    rt: &R,
    shelf: &mut Shelf,
    name: &str,
) -> io::Result<bool> {
    let Ok(file) = read_all(rt.alloc(), &mut DirDesk::new(rt), name, 16_777_216) else {
        println!(rt; "{name} can't be read")?;
        return Ok(false);
    };
    match str::from_utf8(file.as_slice()) {
        Ok(text) => do_rows(rt, shelf, text),
        Err(_) => {
            println!(rt; "{name} is no text")?;
            Ok(false)
        }
    }
}

// Does the rows of a text, and tells whether more can be done.
fn do_rows<R: Threads + Wait + Sync + Files + Clock + Print + AllocGlobal>(
    rt: &R,
    shelf: &mut Shelf,
    text: &str,
) -> io::Result<bool> {
    let mut faults = Faults::none(rt.alloc());
    for line in text.lines() {
        if !do_row(rt, shelf, &mut faults, line)? {
            return Ok(false);
        }
    }
    Ok(true)
}

// Does a row and prints its lines, and tells whether more can be done.
fn do_row<R: Threads + Wait + Sync + Files + Clock + Print + AllocGlobal>(
    rt: &R,
    shelf: &mut Shelf,
    faults: &mut Faults,
    line: &str,
) -> io::Result<bool> {
    let mut out = Lines::new(rt.alloc());
    let answer = row(rt, shelf, faults, &mut out, line);
    rt.print(out.text())?;
    match answer {
        Ok(()) => Ok(true),
        Err(RowStop::NoRow) => {
            println!(rt; "no row: {line}")?;
            Ok(true)
        }
        Err(RowStop::Memory | RowStop::Clock) => {
            println!(rt; "stopped at {line}")?;
            Ok(false)
        }
    }
}

// Does what a line says, and adds how long it took where the line asks for it.
fn row<R: Threads + Wait + Sync + Files + Clock + AllocGlobal>(
    rt: &R,
    shelf: &mut Shelf,
    faults: &mut Faults,
    out: &mut Lines,
    line: &str,
) -> Result<(), RowStop> {
    let words: Vec<&str> = line.split_whitespace().collect(rt.alloc())?;
    match words.as_slice() {
        ["time", words @ ..] => timed_row(rt, shelf, faults, out, line, words),
        words => untimed_row(rt, shelf, faults, out, line, words),
    }
}

fn timed_row<R: Threads + Wait + Sync + Files + Clock + AllocGlobal>(
    rt: &R,
    shelf: &mut Shelf,
    faults: &mut Faults,
    out: &mut Lines,
    line: &str,
    words: &[&str],
) -> Result<(), RowStop> {
    let start = now(rt)?;
    untimed_row(rt, shelf, faults, out, line, words)?;
    add_since(rt, out, start)
}

// Does what the words of a line say.
fn untimed_row<R: Threads + Wait + Sync + Files + AllocGlobal>(
    rt: &R,
    shelf: &mut Shelf,
    faults: &mut Faults,
    out: &mut Lines,
    line: &str,
    words: &[&str],
) -> Result<(), RowStop> {
    match words {
        [] => Ok(()),
        ["#", ..] => out.add(line),
        [name, "=", pieces @ ..] => keep_bytes(rt, shelf, name, pieces),
        [name, "room", room] => keep_room(rt.alloc(), shelf, name, room),
        [first, words @ ..] => named_row(rt, shelf, faults, out, line, first, words),
    }
}

fn keep_bytes<R: Files + AllocGlobal>(
    rt: &R,
    shelf: &mut Shelf,
    name: &str,
    pieces: &[&str],
) -> Result<(), RowStop> {
    let held = Some(bytes_of(rt, shelf, pieces)?);
    shelf.put(rt.alloc(), name, Kept { held, room: 0 })
}

fn keep_room(alloc: Global, shelf: &mut Shelf, name: &str, room: &str) -> Result<(), RowStop> {
    let room = decimal(room)?;
    shelf.put(alloc, name, Kept { held: None, room })
}

// Does what the words after the first word of a line say.
fn named_row<R: Threads + Wait + Sync + Files + AllocGlobal>(
    rt: &R,
    shelf: &mut Shelf,
    faults: &mut Faults,
    out: &mut Lines,
    line: &str,
    first: &str,
    words: &[&str],
) -> Result<(), RowStop> {
    match first {
        "show" => show_bytes(rt, shelf, out, words),
        "faults" => {
            *faults = Faults::read(rt.alloc(), words)?;
            Ok(())
        }
        "check" | "weak-check" | "exec" | "prove" | "weak-prove" => {
            run(rt, shelf, out, faults, first, words)?;
            *faults = Faults::none(rt.alloc());
            Ok(())
        }
        _ => {
            out.add(format_args!("> {line}"))?;
            layer_row(rt.alloc(), shelf, out, first, words)
        }
    }
}

fn show_bytes<R: Files + AllocGlobal>(
    rt: &R,
    shelf: &Shelf,
    out: &mut Lines,
    pieces: &[&str],
) -> Result<(), RowStop> {
    let bytes = bytes_of(rt, shelf, pieces)?;
    out.add(Hex(bytes.as_slice()))
}
