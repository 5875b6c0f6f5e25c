//! A file of a desk in memory: as the caller gives it, and as the desk keeps it.
ghost use Rattle.std.specs.Prelude.{◌≡◌, ◌≤◌, ◌+◌, length, Some, IfOk, if◌then◌else◌, IsTrue, ◌↔◌, bytes_eq};
ghost use Rattle.std.specs.Option.{option_copied};

use byte_cursor::{ByteList, ItemList};
use std::alloc::{AllocError, Global};
use std::marker::Model;

/// A file of a `MemDesk`.
#[derive(Drop)]
pub struct MemFile {
    /// The name's bytes. A name that is no UTF-8 can't be asked for.
    pub name: ByteList,
    /// What it holds; None: it is absent until a write makes it.
    pub held: Option<ByteList>,
    /// How many bytes one write may give it. It may hold more to begin with.
    pub room: u32,
}

/// The files of a `MemDesk`.
pub type MemFiles = ItemList<MemFile>;

impl Model for MemFile {
    ghost use Rattle.std.specs.Option.{option_map};
    ghost use Rattle.outside.specs.NamedFile.{NamedFile};

    ghost Value = { NamedFile };

    ghost view = { λ f. record {
      name = f.name.items;
      held = option_map (λ b. b.items) f.held;
      room = f.room;
    } };
}

// A file as a desk keeps it, with memory for as many bytes as a write may give it.
#[derive(Drop)]
pub(crate) struct Slot {
    name: Vec<u8>,
    is_present: bool,
    bytes: Vec<u8>,
    room: usize,
}

impl Model for Slot {
    ghost use Rattle.std.specs.Prelude.{◌≤◌, vec_capacity, if◌then◌else◌, Some, None};
    ghost use Rattle.outside.specs.NamedFile.{NamedFile};

    ghost Value = { NamedFile };

    ghost view = { λ s. record {
      name = s.name.items;
      held = if s.is_present then Some s.bytes.items else None;
      room = s.room;
    } };

    ghost invariant = { λ s. s.room ≤ vec_capacity s.bytes };
}

impl Slot {
    // A copy of the file, with the memory that its writes will need.
    pub(crate) fn new(alloc: Global, file: &MemFile) -> Result<Slot, AllocError>
        ensures { IfOk result (λ slot. slot ≡ file.now) }
    {
        let held = match &file.held {
            Some(list) => list.as_slice(),
            None => &[],
        };
        let mut bytes = Vec::from_slice(alloc, held)?;
        let room = file.room as usize;
        bytes.reserve(room)?;
        Ok(Slot {
            name: Vec::from_slice(alloc, file.name.as_slice())?,
            is_present: file.held.is_some(),
            bytes,
            room,
        })
    }

    // Whether the file has this name.
    pub(crate) fn has_name(&self, name: &[u8]) -> bool
        ensures { result ≡ bytes_eq name.now self.now.name }
    {
        name == self.name.as_slice()
    }

    // What the file holds; None where it is absent.
    pub(crate) fn held(&self) -> Option<&[u8]>
        ensures { option_copied result ≡ self.now.held }
    {
        if self.is_present {
            Some(self.bytes.as_slice())
        } else {
            None
        }
    }

    // How many bytes a write may give the file.
    pub(crate) fn room(&self) -> usize
        ensures { result ≡ self.now.room }
    {
        self.room
    }

    // Makes the file hold these bytes, and takes no memory.
    pub(crate) fn fill(&mut self, bytes: &[u8])
        requires { length bytes.now ≤ self.old.room }
        ensures { self.new ≡ record self.old { held = Some bytes.now } }
    {
        self.is_present = true;
        self.bytes.clear();
        if self.bytes.extend_from_slice(bytes).is_err() {
            unreachable!();
        }
    }
}
