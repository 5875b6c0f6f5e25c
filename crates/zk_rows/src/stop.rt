use std::alloc::{AllocError, AllocFailed};

/// Why a row isn't done.
#[derive(Clone, Copy)]
pub(crate) enum RowStop {
    /// Want of memory.
    Memory,
    /// The clock can't be read.
    Clock,
    /// It isn't in the language, or names no file.
    NoRow,
}

impl From<AllocError> for RowStop {
    fn from(_error: AllocError) -> Self {
        RowStop::Memory
    }
}

impl<T: Drop> From<AllocFailed<T>> for RowStop {
    fn from(_error: AllocFailed<T>) -> Self {
        RowStop::Memory
    }
}
