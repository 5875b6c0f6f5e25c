use byte_cursor::ItemList;
use digest_core::Digest;

/// A host call with its arguments.
#[derive(Clone, Copy, Debug, PartialEq, Eq)]
pub enum Call {
    /// Ends the run with an exit code.
    Halt { code: u32 },
    /// Stores the next `count` input words, at most 256, at an address that is a multiple of 4.
    Read { pointer: u32, count: u32 },
    /// Appends `count` bytes of memory, at most 1,024, to the journal.
    Commit { pointer: u32, count: u32 },
    /// Appends an assumption to the run's calls: the addresses of its image id and of its journal
    /// digest, of 32 bytes each, both multiples of 4.
    Assume { image: u32, journal: u32 },
}

/// An assumption of a run: that the image of this id halts with 0 and a journal of this digest.
#[derive(Clone, Copy, Debug, PartialEq, Eq)]
pub struct AssumeCall {
    pub image: Digest,
    pub journal: Digest,
}

/// A list of assumptions, in the order in which they were called.
pub type CallList = ItemList<AssumeCall>;
