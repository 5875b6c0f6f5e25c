ghost use Rattle.std.specs.Prelude.{◌≡◌, ◌++◌, ◌∷◌, [], OnOk, OnErr};
ghost use Rattle.rv_step.specs.Tapes.{no_log};

use byte_cursor::ByteList;
use host_calls::{AssumeCall, CallList};
use std::alloc::{AllocError, Global};
use std::marker::Model;

/// What a run has said so far: its journal, and its assumptions in the order of their calls.
/// Contracts see the two as lists.
#[derive(Drop)]
pub struct RunLog {
    pub journal: ByteList,
    pub calls: CallList,
}

impl Model for RunLog {
    ghost use Rattle.rv_step.specs.Tapes.{Log};

    ghost Value = { Log };

    ghost view = { λ l. record { journal = l.journal.items; calls = l.calls.items } };
}

impl RunLog {
    /// The log of a run that has said nothing.
    pub fn new(alloc: Global) -> RunLog
        ensures { result ≡ no_log }
    {
        RunLog {
            journal: ByteList::new(alloc),
            calls: CallList::new(alloc),
        }
    }

    // Appends bytes to the journal, or nothing.
    pub(crate) fn commit(&mut self, bytes: &[u8]) -> Result<(), AllocError>
        ensures ok { OnOk result
            (self.new ≡ record
            { journal = self.old.journal ++ bytes.now; calls = self.old.calls }) }
        ensures err { OnErr result (self.new ≡ self.old) }
    {
        self.journal.extend(bytes)
    }

    // Appends an assumption, or nothing.
    pub(crate) fn assume(&mut self, call: AssumeCall) -> Result<(), AllocError>
        ensures ok { OnOk result
            (self.new ≡ record
            { journal = self.old.journal; calls = self.old.calls ++ call ∷ [] }) }
        ensures err { OnErr result (self.new ≡ self.old) }
    {
        self.calls.push(call)
    }
}
