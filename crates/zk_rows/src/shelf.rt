use crate::stop::RowStop;
use byte_cursor::{ByteList, Out};
use std::alloc::{AllocError, Global};
use std::collections::BTreeMap;

/// A file that rows name.
#[derive(Drop)]
pub(crate) struct Kept {
    /// What it holds; None: it is absent until a command writes it.
    pub held: Option<ByteList>,
    /// How many bytes a write may give it.
    pub room: u32,
}

/// The files that rows name.
#[derive(Drop)]
pub(crate) struct Shelf {
    files: BTreeMap<String, Kept>,
}

impl Shelf {
    pub(crate) fn new(alloc: Global) -> Shelf {
        Shelf {
            files: BTreeMap::new(alloc),
        }
    }

    /// The file of this name.
    pub(crate) fn file(&self, name: &str) -> Option<&Kept> {
        self.files.get(name)
    }

    /// The bytes of the file of this name.
    pub(crate) fn bytes(&self, name: &str) -> Result<&[u8], RowStop> {
        let Some(kept) = self.files.get(name) else {
            return Err(RowStop::NoRow);
        };
        match &kept.held {
            Some(bytes) => Ok(bytes.as_slice()),
            None => Err(RowStop::NoRow),
        }
    }

    /// Keeps a file in the place of the one of its name.
    pub(crate) fn put(&mut self, alloc: Global, name: &str, kept: Kept) -> Result<(), RowStop> {
        let _earlier = self.files.insert(String::from_str(alloc, name)?, kept)?;
        Ok(())
    }
}

/// A list of these bytes.
pub(crate) fn copied(alloc: Global, bytes: &[u8]) -> Result<ByteList, AllocError> {
    let mut out = Out::new(alloc);
    out.put_all(bytes)?;
    Ok(out.finish())
}
