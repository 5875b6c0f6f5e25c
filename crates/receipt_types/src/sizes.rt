//! The limits of a receipt, version 1.

/// The most entries of a bundle; the least is 1.
pub const MOST_ENTRIES: u32 = 256;

/// The most links of an entry.
pub const MOST_LINKS: u32 = 16_777_216;

/// The most seals of an entry; the least is 1.
pub const MOST_SEALS: u32 = 65_535;

/// The most steps of a seal; the least is 1.
pub const MOST_STEPS: u32 = 16_777_216;

/// The most words of a seal.
pub const MOST_WORDS: u32 = 16_777_216;
