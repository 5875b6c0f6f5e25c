//! A desk in memory, which tells what it holds.
ghost use Rattle.std.specs.Prelude.{◌≡◌, ℕ, ◌+◌, ◌≤◌, ◌⊎◌, ◌↔◌, length, drop, unwrap_or, Option, IfOk, IfSome, IsErr, IsTrue, OnOk, OnErr, Contains};
ghost use Rattle.std.specs.Option.{option_copied};
ghost use Rattle.outside.specs.Faults.{CountsFaults, next_count};
ghost use Rattle.outside.specs.Files.{ReadsAt, Writes};

use crate::places::{copy_from, held, is_listed, store};
use crate::slot::{MemFiles, Slot};
use crate::traits::{Desk, Failed};
use byte_cursor::WordList;
use std::alloc::{AllocError, Global};
use std::marker::Model;

/// Files in memory, of which the calls with certain numbers fail. Its calls are numbered from 1
/// over both methods. It takes all its memory when it is made.
///
/// A call fails exactly where its number is among those that fail, or where a write's name isn't
/// among the files or its bytes are more than that file's room. A call that fails changes no file.
#[derive(Drop)]
pub struct MemDesk {
    files: Vec<Slot>,
    fails: WordList,
    calls: u64,
    read_faults: u64,
    write_faults: u64,
}

impl Model for MemDesk {
    ghost use Rattle.outside.specs.Memory.{DeskState};

    ghost Value = { DeskState };

    ghost view = { λ d. record {
      files = d.files.items;
      fails = d.fails.items;
      calls = d.calls;
      read_faults = d.read_faults;
      write_faults = d.write_faults;
    } };
}

impl MemDesk {
    ghost use Rattle.outside.specs.Memory.{fresh_desk};
    ghost use Rattle.outside.specs.NamedFile.{HasDistinctNames, files_of};

    /// A desk with these files, whose names differ, and no calls yet. `fails` lists the numbers of
    /// the calls that fail, in any order. An AllocError is want of memory.
    pub fn new(alloc: Global, files: MemFiles, fails: WordList) -> Result<MemDesk, AllocError>
        requires { HasDistinctNames files.items }
        ensures { IfOk result (λ desk. desk ≡ fresh_desk files.items fails.items) }
    {
        let mut slots = Vec::new(alloc);
        for file in files.as_slice() {
            slots.push(Slot::new(alloc, file)?)?;
        }
        Ok(MemDesk {
            files: slots,
            fails,
            calls: 0,
            read_faults: 0,
            write_faults: 0,
        })
    }

    /// The bytes that a name holds, and None exactly where it is absent. It is no numbered call.
    pub fn held(&self, name: &str) -> Option<&[u8]>
        ensures { option_copied result ≡ files_of self.now.files name.now }
    {
        held(&self.files, name.as_bytes())
    }

    // Counts a call, and tells whether it fails.
    fn next_call(&mut self) -> bool
        ensures counted { self.new ≡ record self.old { calls = next_count self.old.calls } }
        ensures listed { IsTrue result ↔ Contains self.old.fails self.new.calls }
    {
        self.calls = self.calls.saturating_add(1);
        is_listed(self.fails.as_slice(), self.calls)
    }
}

impl Desk for MemDesk {
    ghost use Rattle.std.specs.Prelude.{Some};
    ghost use Rattle.outside.specs.Memory.{after_read, after_failed_read, after_write, after_failed_write};
    ghost use Rattle.outside.specs.NamedFile.{HasRoom, count_read, files_of};

    ghost contents = { λ d. Some (files_of d.files) };

    ghost calls = { λ d. d.calls };

    ghost read_faults = { λ d. d.read_faults };

    ghost write_faults = { λ d. d.write_faults };

    fn read_at(&mut self, name: &str, at: u64, buffer: &mut [u8]) -> Result<Option<usize>, Failed>
        ensures bound { IfOk result (λ read. IfSome read (λ n. n ≤ length buffer.new)) }
        ensures told { IfOk result (λ read.
            ReadsAt (files_of self.old.files) name.now at buffer.new read) }
        ensures cause { CountsFaults self.old.read_faults self.new.read_faults result }

        ensures counted { self.new.calls ≤ self.old.calls + 1 }
        ensures contents { Some (files_of self.new.files) ≡ Some (files_of self.old.files) }
        ensures write_faults { self.new.write_faults ≡ self.old.write_faults }

        // The number of the call alone decides whether it fails.
        ensures failed { IsErr result ↔ Contains self.old.fails (next_count self.old.calls) }
        ensures ok { OnOk result (self.new ≡ after_read self.old) }
        ensures err { OnErr result (self.new ≡ after_failed_read self.old) }

        // With `told` these fix the answer and the whole buffer.
        ensures count { IfOk result (λ read.
            read ≡ count_read (files_of self.old.files name.now) at (length buffer.old)) }
        ensures beyond { IfOk result (λ read.
            drop (unwrap_or read 0) buffer.new ≡ drop (unwrap_or read 0) buffer.old) }
        ensures untouched { OnErr result (buffer.new ≡ buffer.old) }
    {
        if self.next_call() {
            self.read_faults = self.read_faults.saturating_add(1);
            return Err(Failed);
        }
        match held(&self.files, name.as_bytes()) {
            None => Ok(None),
            Some(bytes) => Ok(Some(copy_from(bytes, at, buffer))),
        }
    }

    fn write(&mut self, name: &str, bytes: &[u8]) -> Result<(), Failed>
        ensures told { Writes name.now bytes.now
            (Some (files_of self.old.files)) (Some (files_of self.new.files)) result }
        ensures cause { CountsFaults self.old.write_faults self.new.write_faults result }

        ensures counted { self.new.calls ≤ self.old.calls + 1 }
        ensures read_faults { self.new.read_faults ≡ self.old.read_faults }

        // It fails where its number is listed, its name isn't among the files, or there is no room.
        ensures failed { IsErr result ↔
            (Contains self.old.fails (next_count self.old.calls)
            ⊎ ¬ (HasRoom self.old.files name.now (length bytes.now))) }
        ensures room { OnOk result (HasRoom self.old.files name.now (length bytes.now)) }
        ensures ok { OnOk result (self.new ≡ after_write name.now bytes.now self.old) }
        ensures err { OnErr result (self.new ≡ after_failed_write self.old) }
    {
        if self.next_call() || !store(&mut self.files, name.as_bytes(), bytes) {
            self.write_faults = self.write_faults.saturating_add(1);
            return Err(Failed);
        }
        Ok(())
    }
}
