//! Writing fields at the end of a list of bytes.
ghost use Rattle.std.specs.Prelude.{◌≡◌, ◌++◌, ◌∷◌, [], OnOk, OnErr};
ghost use Rattle.std.specs.Int.{w16, w32, to_le_bytes};

use crate::item_list::ByteList;
use std::alloc::{AllocError, Global};
use std::marker::Model;

/// Writes fields at the end of a list of bytes. Contracts see the bytes so far.
///
/// Numbers are little-endian. An AllocError is want of memory, and then the bytes are as before:
/// no part of the field was written.
#[derive(Drop)]
pub struct Out {
    bytes: ByteList,
}

impl Model for Out {
    ghost use Rattle.std.specs.Prelude.{ℕ, List};

    ghost Value = { List ℕ };

    ghost view = { λ o. o.bytes.items };
}

impl Out {
    /// With no bytes yet. It keeps `alloc` for its memory.
    pub fn new(alloc: Global) -> Self
        ensures { result ≡ [] }
    {
        Out {
            bytes: ByteList::new(alloc),
        }
    }

    /// Appends one byte.
    pub fn put_u8(&mut self, byte: u8) -> Result<(), AllocError>
        ensures ok { OnOk result (self.new ≡ self.old ++ byte ∷ []) }
        ensures err { OnErr result (self.new ≡ self.old) }
    {
        self.bytes.push(byte)
    }

    /// Appends the two bytes of a number, lowest first.
    pub fn put_u16(&mut self, half: u16) -> Result<(), AllocError>
        ensures ok { OnOk result (self.new ≡ self.old ++ to_le_bytes w16 half) }
        ensures err { OnErr result (self.new ≡ self.old) }
    {
        self.put_all(&half.to_le_bytes())
    }

    /// Appends the four bytes of a number, lowest first.
    pub fn put_u32(&mut self, word: u32) -> Result<(), AllocError>
        ensures ok { OnOk result (self.new ≡ self.old ++ to_le_bytes w32 word) }
        ensures err { OnErr result (self.new ≡ self.old) }
    {
        self.put_all(&word.to_le_bytes())
    }

    /// Appends bytes as they stand.
    pub fn put_all(&mut self, bytes: &[u8]) -> Result<(), AllocError>
        ensures ok { OnOk result (self.new ≡ self.old ++ bytes.now) }
        ensures err { OnErr result (self.new ≡ self.old) }
    {
        self.bytes.extend(bytes)
    }

    /// The bytes written, first to last.
    pub fn finish(self) -> ByteList
        ensures { result.items ≡ self }
    {
        self.bytes
    }
}
