ghost use Rattle.std.specs.Prelude.{◌≡◌};
ghost use Rattle.session.specs.declared.stop.SessionStop.TheVariants.{Memory};

use rv_isa::Fault;
use std::alloc::AllocError;

/// Why a session proves nothing. Steps are numbered from 0.
#[derive(Clone, Copy, Debug, PartialEq, Eq)]
pub enum SessionStop {
    /// The run has more than 65,535 segments.
    TooManySeals,
    /// This step, at this pc, faults, within the limit.
    Faulted { fault: Fault, pc: u32, step: u64 },
    /// This step, with those before it, costs more than the limit.
    OverLimit { step: u64 },
    /// There was no memory.
    Memory,
}

impl From<AllocError> for SessionStop {
    ghost from_gives = { λ _ stop. stop ≡ Memory };

    fn from(_error: AllocError) -> SessionStop {
        SessionStop::Memory
    }
}
