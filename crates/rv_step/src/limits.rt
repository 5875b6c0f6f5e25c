//! The limits of a run and of its segments.

/// The least limit on the cost of a segment: it holds every step.
pub const CYCLES_MIN: u32 = 512;

/// The greatest limit on the cost of a segment.
pub const CYCLES_MAX: u32 = 16_777_216;

/// The least limit on the distinct pages that a segment touches: it holds the pages of every step.
pub const PAGES_MIN: u32 = 8;

/// The greatest limit on the distinct pages that a segment touches.
pub const PAGES_MAX: u32 = 4_096;

/// The greatest limit on the cost of a whole run; the least is 1.
pub const LIMIT_MAX: u64 = 67_108_864;
