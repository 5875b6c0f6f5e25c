ghost use Rattle.std.specs.Prelude.{◌≡◌};
ghost use Rattle.resolve.specs.declared.stop.ResolveStop.TheVariants.{Memory};

use std::alloc::AllocError;

/// Why no bundle is made. Calls are numbered from 0.
#[derive(Clone, Copy, Debug, PartialEq, Eq)]
pub enum ResolveStop {
    /// No entry answers this call, and each call before it is answered.
    NoReceiptFor { call: u64 },
    /// There are so many entries, which is more than 256.
    TooManyEntries { count: u64 },
    /// There was no memory.
    Memory,
}

impl From<AllocError> for ResolveStop {
    ghost from_gives = { λ _ stop. stop ≡ Memory };

    fn from(_error: AllocError) -> ResolveStop {
        ResolveStop::Memory
    }
}
