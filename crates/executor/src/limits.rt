ghost use Rattle.std.specs.Prelude.{◌≡◌, IfSome, IfNone};
ghost use Rattle.executor.specs.Laws.{AreLimits};

use rv_step::{CYCLES_MAX, CYCLES_MIN, LIMIT_MAX, PAGES_MAX, PAGES_MIN};
use std::marker::Model;

/// The limit on the cost of a segment where none is asked for.
pub const DEFAULT_CYCLES: u32 = 1_048_576;

/// The limit on the distinct pages that a segment touches where none is asked for.
pub const DEFAULT_PAGES: u32 = 1_024;

/// The limit on the cost of a whole run where none is asked for.
pub const DEFAULT_LIMIT: u64 = 16_777_216;

/// The most that a segment costs, 512 to 16,777,216, the most pages that it touches, 8 to 4,096, and the most that a whole
/// run costs, 1 to 67,108,864. Contracts see the three numbers.
#[derive(Clone, Copy)]
pub struct Limits {
    cycles: u32,
    pages: u32,
    limit: u64,
}

impl Model for Limits {
    ghost use Rattle.executor.specs.Segments as plain;
    ghost use Rattle.executor.specs.Laws.{AreLimits};

    ghost Value = { plain.Limits };

    ghost view = { λ l. record { cycles = l.cycles; pages = l.pages; limit = l.limit } };

    ghost inverse = { λ l. record { cycles = l.cycles; pages = l.pages; limit = l.limit } };

    ghost invariant = { λ l. AreLimits (record { cycles = l.cycles; pages = l.pages; limit = l.limit }) };
}

impl Limits {
    /// These limits; None exactly where one is outside its range.
    pub fn new(cycles: u32, pages: u32, limit: u64) -> Option<Limits>
        ensures some { IfSome result
            (λ limits. limits ≡ record { cycles = cycles; pages = pages; limit = limit }) }
        ensures none { IfNone result
            (AreLimits (record { cycles = cycles; pages = pages; limit = limit }) → ⊥) }
    {
        if cycles < CYCLES_MIN || cycles > CYCLES_MAX || pages < PAGES_MIN || pages > PAGES_MAX {
            return None;
        }
        if limit < 1 || limit > LIMIT_MAX {
            return None;
        }
        Some(Limits {
            cycles,
            pages,
            limit,
        })
    }

    /// The most that a segment costs.
    pub fn cycles(&self) -> u32
        ensures value { result ≡ self.now.cycles }
        ensures ranges { AreLimits self.now }
    {
        self.cycles
    }

    /// The most pages that a segment touches.
    pub fn pages(&self) -> u32
        ensures value { result ≡ self.now.pages }
        ensures ranges { AreLimits self.now }
    {
        self.pages
    }

    /// The most that a whole run costs.
    pub fn limit(&self) -> u64
        ensures value { result ≡ self.now.limit }
        ensures ranges { AreLimits self.now }
    {
        self.limit
    }
}
