ghost use Rattle.std.specs.Prelude.{◌≡◌};
ghost use Rattle.audit.specs.Answers.{stop_of_check};
ghost use Rattle.audit.specs.declared.stop.AuditStop.TheVariants.{Memory};

use check_core::CheckStop;
use digest_core::Digest;
use std::alloc::AllocError;

/// Why an audit isn't made. The first that holds is answered.
#[derive(Clone, Copy, Debug, PartialEq, Eq)]
pub enum AuditStop {
    /// The check of the bundle, under the digest of its own first state, has this first stop: neither Malformed,
    /// Version, WrongImage nor Memory.
    Refused(CheckStop),
    /// The bundle has so many entries, and none with the number that was asked for.
    NoEntry { count: u32 },
    /// The image's id, `wanted`, isn't the digest of the entry's first state, `found`.
    OtherImage { wanted: Digest, found: Digest },
    /// There was no memory.
    Memory,
}

impl From<CheckStop> for AuditStop {
    ghost from_gives = { λ stop refusal. refusal ≡ stop_of_check stop };

    fn from(stop: CheckStop) -> AuditStop {
        match stop {
            CheckStop::Memory => AuditStop::Memory,
            stop => AuditStop::Refused(stop),
        }
    }
}

impl From<AllocError> for AuditStop {
    ghost from_gives = { λ _ stop. stop ≡ Memory };

    fn from(_error: AllocError) -> AuditStop {
        AuditStop::Memory
    }
}
