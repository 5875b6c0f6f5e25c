//! The causes for which `read_all` has no answer.

/// Why `read_all` has no answer.
#[derive(Clone, Copy, Debug, PartialEq, Eq)]
pub enum ReadAllStop {
    /// A read failed.
    Fault,
    /// There is no file of that name.
    NoFile,
    /// The file has more bytes than the limit.
    TooLong,
    /// Memory is wanting.
    Memory,
}
