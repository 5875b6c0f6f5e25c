//! A sink in memory, which tells what it took.
ghost use Rattle.std.specs.Prelude.{◌≡◌, ◌+◌, ◌-◌, ◌<◌, ◌≤◌, ◌⊎◌, ◌↔◌, ◌++◌, length, IfOk, IsErr, IsTrue, OnOk, OnErr, Contains};
ghost use Rattle.outside.specs.Faults.{CountsFaults, next_count};
ghost use Rattle.outside.specs.Files.{PutsBytes};

use crate::places::is_listed;
use crate::traits::{Failed, Sink};
use byte_cursor::WordList;
use std::alloc::{AllocError, Global};
use std::marker::Model;

/// A stream in memory, of which the calls with certain numbers fail. Its calls are numbered
/// from 1. It takes all its memory when it is made.
///
/// A put fails exactly where its number is among those that fail, or where its bytes are more
/// than the room that is left. A put that fails appends nothing.
#[derive(Drop)]
pub struct MemSink {
    taken: Vec<u8>,
    room: usize,
    fails: WordList,
    calls: u64,
    faults: u64,
}

impl Model for MemSink {
    ghost use Rattle.std.specs.Prelude.{◌+◌, ◌≤◌, vec_len, vec_capacity};
    ghost use Rattle.outside.specs.Memory.{SinkState};

    ghost Value = { SinkState };

    ghost view = { λ s. record {
      taken = s.taken.items;
      room = s.room;
      fails = s.fails.items;
      calls = s.calls;
      faults = s.faults;
    } };

    ghost invariant = { λ s. vec_len s.taken + s.room ≤ vec_capacity s.taken };
}

impl MemSink {
    ghost use Rattle.outside.specs.Memory.{fresh_sink};

    /// A sink that takes `room` bytes in all, with no calls yet. `fails` lists the numbers of the
    /// calls that fail, in any order. An AllocError is want of memory.
    pub fn new(alloc: Global, room: u32, fails: WordList) -> Result<MemSink, AllocError>
        ensures { IfOk result (λ sink. sink ≡ fresh_sink room fails.items) }
    {
        let room = room as usize;
        Ok(MemSink {
            taken: Vec::with_capacity(alloc, room)?,
            room,
            fails,
            calls: 0,
            faults: 0,
        })
    }

    /// The bytes taken so far. It is no numbered call.
    pub fn taken(&self) -> &[u8]
        ensures { result.now ≡ self.now.taken }
    {
        self.taken.as_slice()
    }

    // Counts a call, and tells whether it fails.
    fn next_call(&mut self) -> bool
        ensures counted { self.new ≡ record self.old { calls = next_count self.old.calls } }
        ensures listed { IsTrue result ↔ Contains self.old.fails self.new.calls }
    {
        self.calls = self.calls.saturating_add(1);
        is_listed(self.fails.as_slice(), self.calls)
    }
}

impl Sink for MemSink {
    ghost use Rattle.std.specs.Prelude.{Some};
    ghost use Rattle.outside.specs.Memory.{after_put, after_failed_put};

    ghost taken = { λ s. Some s.taken };

    ghost calls = { λ s. s.calls };

    ghost faults = { λ s. s.faults };

    fn put(&mut self, bytes: &[u8]) -> Result<(), Failed>
        ensures told { PutsBytes bytes.now (Some self.old.taken) (Some self.new.taken) result }
        ensures cause { CountsFaults self.old.faults self.new.faults result }
        ensures counted { self.new.calls ≤ self.old.calls + 1 }

        // It fails where its number is listed, or its bytes are more than the room that is left.
        ensures failed { IsErr result ↔
            (Contains self.old.fails (next_count self.old.calls)
            ⊎ self.old.room < length bytes.now) }
        ensures ok { OnOk result (self.new ≡ after_put bytes.now self.old) }
        ensures err { OnErr result (self.new ≡ after_failed_put self.old) }
    {
        if self.next_call() || self.room < bytes.len() {
            self.faults = self.faults.saturating_add(1);
            return Err(Failed);
        }
        self.room -= bytes.len();
        if self.taken.extend_from_slice(bytes).is_err() {
            unreachable!();
        }
        Ok(())
    }
}
