//! Why bytes could not be read.
ghost use Rattle.std.specs.Prelude.{◌≡◌};
ghost use Rattle.receipt_codec.specs.declared.stop.ReadStop.TheVariants.{Memory};

use std::alloc::{AllocError, AllocFailed};

/// Why nothing was read.
#[derive(Clone, Copy, Debug, PartialEq, Eq)]
pub enum ReadStop {
    /// The bytes spell nothing of what is read; of a bundle, they don't begin with another version either.
    Malformed,
    /// The bytes of a bundle begin with `SEAL` and this version, which isn't 1.
    Version(u16),
    /// Memory is wanting. It says nothing of the bytes.
    Memory,
}

impl From<AllocError> for ReadStop {
    ghost from_gives = { λ _ stop. stop ≡ Memory };

    fn from(_error: AllocError) -> ReadStop {
        ReadStop::Memory
    }
}

impl<T: Drop> From<AllocFailed<T>> for ReadStop {
    ghost from_gives = { λ _ stop. stop ≡ Memory };

    fn from(_error: AllocFailed<T>) -> ReadStop {
        ReadStop::Memory
    }
}
