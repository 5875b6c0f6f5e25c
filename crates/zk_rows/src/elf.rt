ghost use Rattle.std.specs.Prelude.{IsTrue};
ghost use Rattle.guest_gen.specs.Assembly.{AreValid};

use crate::machine::words_in;
use crate::stop::RowStop;
use byte_cursor::ByteList;
use guest_gen::{GuestLine, assemble};
use rv_isa::{Instr, decode};
use std::alloc::Global;

/// The ELF file of a guest whose code stands at 0x1000 and begins there: whole words, 1 to 65,536 of them.
pub(crate) fn elf_of(alloc: Global, code: &[u8]) -> Result<ByteList, RowStop> {
    if code.len() % 4 != 0 {
        return Err(RowStop::NoRow);
    }
    assembled(alloc, lines_of(alloc, code)?.as_slice())
}

fn assembled(alloc: Global, lines: &[GuestLine]) -> Result<ByteList, RowStop> {
    if lines.is_empty() || lines.len() > 65_536 || !are_valid(lines) {
        return Err(RowStop::NoRow);
    }
    Ok(assemble(alloc, lines)?)
}

// The lines of the words that bytes spell.
fn lines_of(alloc: Global, code: &[u8]) -> Result<Vec<GuestLine>, RowStop> {
    let words = words_in(alloc, code)?;
    let mut lines = Vec::new(alloc);
    for word in words.as_slice() {
        lines.push(line_of(*word))?;
    }
    Ok(lines)
}

// The line of a word: its instruction, where there is one that is encoded as this word again.
fn line_of(word: u32) -> GuestLine {
    match decode(word) {
        None | Some(Instr::Fence) => GuestLine::Word(word),
        Some(instr) => GuestLine::Instr(instr),
    }
}

// Whether each line is valid.
fn are_valid(lines: &[GuestLine]) -> bool
    ensures { IsTrue result → AreValid lines.now }
{
    match lines.split_first() {
        None => true,
        Some((first, rest)) => first.is_valid() && are_valid(rest),
    }
}
