//! Calls of a desk and of a sink in memory.

use crate::lines::{Hex, Lines};
use crate::running::{desk_of, listed};
use crate::shelf::Shelf;
use crate::stop::RowStop;
use crate::words::{decimal, split_at_mark};
use digest_core::{ShaDigester, hash};
use outside::{Desk, MemDesk, MemSink, Sink, read_all};
use std::alloc::Global;
use std::str;

/// Makes these calls of a desk that holds the files that they name, of which the one of the first number fails, and adds
/// what each answers.
pub(crate) fn desk_calls(
    alloc: Global,
    shelf: &Shelf,
    out: &mut Lines,
    words: &[&str],
) -> Result<(), RowStop> {
    let [fail, calls @ ..] = words else {
        return Err(RowStop::NoRow);
    };
    let names = names_of(alloc, calls)?;
    let mut desk = desk_of(alloc, shelf, names.as_slice(), decimal(fail)?)?;
    for call in calls {
        desk_call(alloc, out, &mut desk, call)?;
    }
    Ok(())
}

// The names of the files of calls.
fn names_of(alloc: Global, calls: &[&str]) -> Result<Vec<String>, RowStop> {
    let mut names = Vec::new(alloc);
    for call in calls {
        let (_, name, _) = parts_of(call)?;
        names.push(String::from_str(alloc, name)?)?;
    }
    Ok(names)
}

// The kind of a call, the name of its file, and the rest.
fn parts_of<'a>(call: &'a str) -> Result<(&'a str, &'a str, &'a str), RowStop> {
    let (kind, rest) = split_at_mark(call, ':')?;
    match rest.split_once(':') {
        Some((name, rest)) => Ok((kind, name, rest)),
        None => Ok((kind, rest, "")),
    }
}

// Makes a call, and adds what it answers.
fn desk_call(
    alloc: Global,
    out: &mut Lines,
    desk: &mut MemDesk,
    call: &str,
) -> Result<(), RowStop> {
    let (kind, name, rest) = parts_of(call)?;
    match kind {
        "read" => read_file(alloc, out, desk, call, name, decimal(rest)?),
        "write" => add_done(out, call, desk.write(name, rest.as_bytes()).is_ok()),
        "held" => add_held(out, call, desk.held(name)),
        _ => Err(RowStop::NoRow),
    }
}

fn read_file(
    alloc: Global,
    out: &mut Lines,
    desk: &mut MemDesk,
    call: &str,
    name: &str,
    limit: u32,
) -> Result<(), RowStop> {
    match read_all(alloc, desk, name, limit as u64) {
        Ok(bytes) => add_held(out, call, Some(bytes.as_slice())),
        Err(stop) => out.add(format_args!("{call} {stop:?}")),
    }
}

// Adds the length and the SHA-256 of bytes.
fn add_held(out: &mut Lines, call: &str, bytes: Option<&[u8]>) -> Result<(), RowStop> {
    let Some(bytes) = bytes else {
        return out.add(format_args!("{call} absent"));
    };
    let digest = hash::<ShaDigester>(bytes);
    let (length, digits) = (bytes.len(), Hex(digest.bytes().as_slice()));
    out.add(format_args!("{call} {length} {digits}"))
}

// Adds whether a call was done.
fn add_done(out: &mut Lines, call: &str, is_done: bool) -> Result<(), RowStop> {
    let word = if is_done { "done" } else { "failed" };
    out.add(format_args!("{call} {word}"))
}

/// Puts texts into a sink of this room, of which the put of this number fails, and adds what each answers, and what the
/// sink has taken.
pub(crate) fn sink_puts(alloc: Global, out: &mut Lines, words: &[&str]) -> Result<(), RowStop> {
    let [room, fail, texts @ ..] = words else {
        return Err(RowStop::NoRow);
    };
    let mut sink = MemSink::new(alloc, decimal(room)?, listed(alloc, decimal(fail)?)?)?;
    for text in texts {
        put_text(out, &mut sink, text)?;
    }
    add_taken(out, &sink)
}

// Adds what a sink has taken.
fn add_taken(out: &mut Lines, sink: &MemSink) -> Result<(), RowStop> {
    match str::from_utf8(sink.taken()) {
        Ok(taken) => out.add(format_args!("taken {taken}")),
        Err(_) => Err(RowStop::NoRow),
    }
}

fn put_text(out: &mut Lines, sink: &mut MemSink, text: &str) -> Result<(), RowStop> {
    let bytes = if text == "''" { "" } else { text };
    add_done(out, text, sink.put(bytes.as_bytes()).is_ok())
}
