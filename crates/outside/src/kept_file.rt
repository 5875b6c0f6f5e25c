//! The file that a desk over the system keeps open from one read to the next.
ghost use Rattle.std.specs.Prelude.{◌≡◌, ◌<◌, ◌≤◌, ◌↔◌, length, IfOk, IfSome, IfNone, IsTrue, bytes_eq, true};

use std::io::{self, ErrorKind, Read};
use std::marker::Model;

// The longest name that is kept, in bytes. The system opens no longer one: it takes at most 4,096
// with the NUL at the end.
const LONGEST_NAME: usize = 4096;

// A copy of a file's name, which takes no memory of its own.
#[derive(Drop)]
pub(crate) struct KeptName {
    bytes: [u8; LONGEST_NAME],
    length: usize,
}

impl Model for KeptName {
    ghost use Rattle.std.specs.Prelude.{◌≤◌, ℕ, List, take};
    ghost use Rattle.outside.specs.declared.kept_file.TheConstants.{LONGEST_NAME};

    ghost Value = { List ℕ };

    ghost view = { λ n. take n.length n.bytes };

    ghost invariant = { λ n. n.length ≤ LONGEST_NAME };
}

impl KeptName {
    // A copy of the name, and None where it is too long.
    pub(crate) fn new(name: &str) -> Option<KeptName>
        ensures copied { IfSome result (λ copy. copy ≡ name.now) }
        ensures long { IfNone result (LONGEST_NAME < length name.now) }
    {
        let length = name.len();
        if length > LONGEST_NAME {
            return None;
        }
        let mut bytes = [0u8; LONGEST_NAME];
        bytes[..length].copy_from_slice(name.as_bytes());
        Some(KeptName { bytes, length })
    }

    // Whether it is this name.
    fn is(&self, name: &str) -> bool
        ensures { result ≡ bytes_eq name.now self.now }
    {
        name.as_bytes() == &self.bytes[..self.length]
    }
}

// An open file, its name, and the place that its reads have reached.
#[derive(Drop)]
pub(crate) struct KeptFile<F> {
    pub(crate) file: F,
    pub(crate) name: KeptName,
    pub(crate) place: u64,
}

impl<F> KeptFile<F> {
    // Whether a read of this name from this place goes on where the last one ended. One from the
    // beginning never does: it is a new reading of what has the name by then.
    pub(crate) fn goes_on(&self, name: &str, at: u64) -> bool
        ensures { IsTrue result ↔
            ((0 < at) × (self.now.place ≡ at) × (bytes_eq name.now self.now.name ≡ true)) }
    {
        0 < at && self.place == at && self.name.is(name)
    }
}

// One read, repeated where a signal interrupts it.
pub(crate) fn read_retrying<F: Read>(file: &mut F, buffer: &mut [u8]) -> io::Result<usize>
    ensures { IfOk result (λ n. n ≤ length buffer.new) }
{
    for _ in 0..u64::MAX {
        match file.read(buffer) {
            Ok(n) => return Ok(n),
            Err(e) if e.kind() == ErrorKind::Interrupted => {}
            Err(e) => return Err(e),
        }
    }
    Err(io::Error::from(ErrorKind::Interrupted))
}
