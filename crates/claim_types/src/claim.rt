use crate::state::State;
use byte_cursor::ByteList;
use host_calls::CallList;
use std::marker::Model;

/// How a span ends.
#[derive(Clone, Copy, Debug, PartialEq, Eq)]
pub enum Exit {
    /// The run goes on after it.
    Split,
    /// The run ends there, with this exit code.
    Halted(u32),
}

/// What is claimed of a span of a run. After a halt the state is the one with pc 0 and a root of 32
/// zero bytes. Contracts see the lists' items.
#[derive(Drop)]
pub struct SpanClaim {
    pub before: State,
    pub after: State,
    pub exit: Exit,
    pub journal: ByteList,
    pub calls: CallList,
}

impl Model for SpanClaim {
    ghost use Rattle.claim_types.specs.Claims as spec;
    ghost use Rattle.claim_types.specs.Codes.{claim_code};

    ghost Value = { spec.SpanClaim };

    ghost coded = { claim_code };

    ghost view = { λ c. record { before = c.before; after = c.after; exit = c.exit; journal = c.journal.items; calls = c.calls.items } };
}
