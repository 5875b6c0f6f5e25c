//! The numbers of a tree.

/// The height of the whole tree over a memory: it has a page for each number below 2^18.
pub const HEIGHT: u32 = 18;

/// The most pages that a canonical tree opens.
pub const MOST_PAGES: u32 = 4_096;
