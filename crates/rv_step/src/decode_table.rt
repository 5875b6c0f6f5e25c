ghost use Rattle.std.specs.Prelude.{◌≡◌, ◌≤◌, Some, IsTrue, IfSome, OnOk};
ghost use Rattle.rv_isa.specs.Rows.{decode_of};
ghost use Rattle.rv_isa.specs.Encoding.{valid};
ghost use Rattle.rv_isa.specs.Registers.{HasRegisters};
ghost use Rattle.rv_step.specs.declared.decode_table.TheConstants.{PLACES};

use rv_isa::{Instr, decode, encode};
use std::alloc::{AllocError, Global};
use std::marker::Model;

/// How many places a table has, once it has any: code of 16 KiB without a gap shares none.
pub const PLACES: usize = 4_096;

// A word that was decoded, with its instruction.
#[derive(Clone, Copy)]
struct Entry {
    word: u32,
    instr: Instr,
    ghost meaning: { decode_of word ≡ Some instr },
    ghost valid: { IsTrue (valid instr) },
}

/// Words that were decoded, with their instructions, each at a place by the address that it was fetched from. A word
/// is compared with that of its place before the instruction is used, so whatever is written into code, no entry is
/// wrong. Contracts see how many places there are.
#[derive(Drop)]
pub struct DecodeTable {
    entries: Vec<Entry>,
}

impl Model for DecodeTable {
    ghost use Rattle.std.specs.Prelude.{ℕ, vec_len};

    ghost Value = { ℕ };

    ghost view = { λ t. vec_len t.entries };
}

impl DecodeTable {
    /// A table without a place: each word is decoded. It takes no memory.
    pub fn new(alloc: Global) -> DecodeTable
        ensures { result ≡ 0 }
    {
        DecodeTable {
            entries: Vec::new(alloc),
        }
    }

    /// Makes the places, 48 KiB, where there are none. An AllocError is want of memory; then there may be some.
    pub fn fill(&mut self) -> Result<(), AllocError>
        ensures { OnOk result (PLACES ≤ self.new) }
    {
        let instr = Instr::Ecall;
        let word = encode(&instr);
        while self.entries.len() < PLACES {
            self.entries.push(Entry { word, instr })?;
        }
        Ok(())
    }

    // The instruction of a word that was fetched from this address, if it is one.
    #[inline(always)]
    pub(crate) fn decode(&mut self, pc: u32, word: u32) -> Option<Instr>
        ensures meaning { result ≡ decode_of word }
        ensures registers { IfSome result HasRegisters }
        ensures places { self.new ≡ self.old }
    {
        let place = (pc / 4) as usize % PLACES;
        match self.entries.get(place) {
            Some(entry) if entry.word == word => Some(entry.instr),
            _ => self.decode_anew(place, word),
        }
    }

    // The same, of a word that its place doesn't have.
    #[inline(never)]
    fn decode_anew(&mut self, place: usize, word: u32) -> Option<Instr>
        ensures meaning { result ≡ decode_of word }
        ensures registers { IfSome result HasRegisters }
        ensures places { self.new ≡ self.old }
    {
        let instr = decode(word)?;
        if let Some(entry) = self.entries.get_mut(place) {
            *entry = Entry { word, instr };
        }
        Some(instr)
    }
}
