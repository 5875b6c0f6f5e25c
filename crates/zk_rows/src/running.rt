//! A command over a desk and a sink in memory.
ghost use Rattle.std.specs.Prelude.{IsTrue};
ghost use Rattle.outside.specs.NamedFile.{HasDistinctNames};

use crate::lines::{Hex, Lines};
use crate::shelf::{Kept, Shelf, copied};
use crate::stop::RowStop;
use crate::words::{decimal, split_at_mark, words_of};
use byte_cursor::WordList;
use check_calls::check_top;
use cli_text::Status;
use digest_core::{ShaDigester, WeakDigester, hash};
use outside::{MemDesk, MemFile, MemFiles, MemSink};
use prove_calls::{exec_top, prove_top};
use session::NoGate;
use std::alloc::{AllocError, Global};
use std::sync::Wait;
use std::thread::Threads;
use std::{fmt, str};

/// The calls that fail: of the desk's and of the sink's one each time the command is run, 0 being none. Without a pair it is
/// run once, and none fails.
#[derive(Drop)]
pub(crate) struct Faults {
    pairs: Vec<(u32, u32)>,
}

impl Faults {
    /// One run, in which no call fails.
    pub(crate) fn none(alloc: Global) -> Faults {
        Faults {
            pairs: Vec::new(alloc),
        }
    }

    /// One run for each pair, as `1/0`.
    pub fn read(alloc: Global, texts: &[&str]) -> Result<Faults, RowStop> {
        let mut pairs = Vec::new(alloc);
        for text in texts {
            pairs.push(pair_of(text)?)?;
        }
        Ok(Faults { pairs })
    }
}

fn pair_of(text: &str) -> Result<(u32, u32), RowStop> {
    let (desk, sink) = split_at_mark(text, '/')?;
    Ok((decimal(desk)?, decimal(sink)?))
}

/// Runs a command once for each pair of calls that fail, and adds what it came to.
pub(crate) fn run<R: Threads + Wait + Sync + AllocGlobal>(
    rt: &R,
    shelf: &mut Shelf,
    out: &mut Lines,
    faults: &Faults,
    top: &str,
    texts: &[&str],
) -> Result<(), RowStop> {
    let words = words_of(rt.alloc(), shelf, texts)?;
    if faults.pairs.is_empty() {
        return run_once(rt, shelf, out, top, words.as_slice(), (0, 0));
    }
    for fails in faults.pairs.iter() {
        run_once(rt, shelf, out, top, words.as_slice(), *fails)?;
    }
    Ok(())
}

fn run_once<R: Threads + Wait + Sync + AllocGlobal>(
    rt: &R,
    shelf: &mut Shelf,
    out: &mut Lines,
    top: &str,
    words: &[String],
    fails: (u32, u32),
) -> Result<(), RowStop> {
    let alloc = rt.alloc();
    let (fail, put) = fails;
    let mut desk = desk_of(alloc, shelf, words, fail)?;
    out.add(Title { top, words, fails })?;
    add_answer(rt, out, top, words, &mut desk, put)?;
    keep_written(alloc, shelf, out, &desk, words)
}

/// The desk that holds the files that these words name, of which the call of this number fails, 0 being none.
pub(crate) fn desk_of(
    alloc: Global,
    shelf: &Shelf,
    words: &[String],
    fail: u32,
) -> Result<MemDesk, RowStop> {
    let files = files_of(alloc, shelf, words)?;
    if !are_distinct(files.as_slice()) {
        return Err(RowStop::NoRow);
    }
    Ok(MemDesk::new(alloc, files, listed(alloc, fail)?)?)
}

// Adds what the call puts into a sink of which this put fails, and its status.
fn add_answer<R: Threads + Wait + Sync + AllocGlobal>(
    rt: &R,
    out: &mut Lines,
    top: &str,
    words: &[String],
    desk: &mut MemDesk,
    put: u32,
) -> Result<(), RowStop> {
    let alloc = rt.alloc();
    let mut sink = MemSink::new(alloc, 10_000, listed(alloc, put)?)?;
    let number = answer(rt, top, words, desk, &mut sink)?.number();
    match str::from_utf8(sink.taken()) {
        Ok(text) => out.add(format_args!("{text}status {number}")),
        Err(_) => Err(RowStop::NoRow),
    }
}

// What the call answers.
fn answer<R: Threads + Wait + Sync + AllocGlobal>(
    rt: &R,
    top: &str,
    words: &[String],
    desk: &mut MemDesk,
    sink: &mut MemSink,
) -> Result<Status, RowStop> {
    let alloc = rt.alloc();
    match top {
        "check" => Ok(check_top::<ShaDigester, _, _>(alloc, words, desk, sink)),
        "weak-check" => Ok(check_top::<WeakDigester, _, _>(alloc, words, desk, sink)),
        "exec" => Ok(exec_top(alloc, words, desk, sink)),
        "prove" => Ok(prove_top::<ShaDigester, _, _, _, _>(rt, alloc, words, desk, sink, &NoGate)),
        "weak-prove" => Ok(prove_top::<WeakDigester, _, _, _, _>(
            rt, alloc, words, desk, sink, &NoGate,
        )),
        _ => Err(RowStop::NoRow),
    }
}

// A command as it is printed: its words, and the calls that fail.
#[derive(Clone, Copy)]
struct Title<'a> {
    top: &'a str,
    words: &'a [String],
    fails: (u32, u32),
}

impl fmt::Display for Title<'_> {
    fn fmt<W: fmt::Write>(&self, f: &mut fmt::Formatter<W>) -> fmt::Result {
        let top = self.top;
        write!(f, "> {top}")?;
        for word in self.words {
            write!(f, " {word}")?;
        }
        let (fail, put) = self.fails;
        if fail == 0 && put == 0 {
            return Ok(());
        }
        write!(f, " with faults {fail}/{put}")
    }
}

// The files that the words name.
fn files_of(alloc: Global, shelf: &Shelf, words: &[String]) -> Result<MemFiles, RowStop> {
    let mut files = MemFiles::new(alloc);
    for word in words {
        add_file(alloc, shelf, &mut files, word.as_str())?;
    }
    Ok(files)
}

// Adds the file of a name that is not among the files yet.
fn add_file(alloc: Global, shelf: &Shelf, files: &mut MemFiles, name: &str) -> Result<(), RowStop> {
    let Some(kept) = shelf.file(name) else {
        return Ok(());
    };
    let is_there = files
        .as_slice()
        .iter()
        .any(|file| file.name.as_slice() == name.as_bytes());
    if is_there {
        return Ok(());
    }
    Ok(files.push(file_of(alloc, name, kept)?)?)
}

fn file_of(alloc: Global, name: &str, kept: &Kept) -> Result<MemFile, AllocError> {
    let held = match &kept.held {
        Some(bytes) => Some(copied(alloc, bytes.as_slice())?),
        None => None,
    };
    Ok(MemFile {
        name: copied(alloc, name.as_bytes())?,
        held,
        room: kept.room,
    })
}

// Whether no two files have one name.
fn are_distinct(files: &[MemFile]) -> bool
    ensures { IsTrue result → HasDistinctNames files.now }
{
    match files.split_first() {
        None => true,
        Some((first, rest)) => {
            rest.iter()
                .all(|file| file.name.as_slice() != first.name.as_slice())
                && are_distinct(rest)
        }
    }
}

// Keeps and adds the files that the command changed.
fn keep_written(
    alloc: Global,
    shelf: &mut Shelf,
    out: &mut Lines,
    desk: &MemDesk,
    words: &[String],
) -> Result<(), RowStop> {
    for word in words {
        if let Some(bytes) = desk.held(word.as_str()) {
            keep_file(alloc, shelf, out, word.as_str(), bytes)?;
        }
    }
    Ok(())
}

// Keeps and adds a file that has other bytes than before.
fn keep_file(
    alloc: Global,
    shelf: &mut Shelf,
    out: &mut Lines,
    name: &str,
    bytes: &[u8],
) -> Result<(), RowStop> {
    if has_bytes(shelf, name, bytes) {
        return Ok(());
    }
    add_written(out, name, bytes)?;
    let room = match shelf.file(name) {
        Some(kept) => kept.room,
        None => 0,
    };
    let held = Some(copied(alloc, bytes)?);
    shelf.put(alloc, name, Kept { held, room })
}

fn has_bytes(shelf: &Shelf, name: &str, bytes: &[u8]) -> bool {
    match shelf.bytes(name) {
        Ok(before) => before == bytes,
        Err(_) => false,
    }
}

fn add_written(out: &mut Lines, name: &str, bytes: &[u8]) -> Result<(), RowStop> {
    let digest = hash::<ShaDigester>(bytes);
    let (length, digits) = (bytes.len(), Hex(digest.bytes().as_slice()));
    out.add(format_args!("wrote {name} {length} {digits}"))
}

/// This number alone.
pub(crate) fn listed(alloc: Global, number: u32) -> Result<WordList, AllocError> {
    let mut numbers = WordList::new(alloc);
    numbers.push(number)?;
    Ok(numbers)
}
