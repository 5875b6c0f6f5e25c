//! The numbers of a memory.

/// The number of pages of a memory, of 1,024 bytes each.
pub const PAGES: u32 = 262_144;

/// The register page, the last of a memory: its first 128 bytes are the words x0 to x31 of a state.
pub const REGISTER_PAGE: u32 = 262_143;

/// The address of the register page, at and above which a guest reaches nothing.
pub const TOP: u32 = 0x0FFF_FC00;
