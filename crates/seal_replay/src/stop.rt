ghost use Rattle.std.specs.Prelude.{◌≡◌, Some};
ghost use Rattle.seal_replay.specs.declared.stop.ReplayStop.TheVariants.{Memory};
ghost use Rattle.seal_replay.specs.Text.{replay_text};

use rv_isa::Fault;
use std::alloc::AllocError;
use std::fmt;

/// Why the replay of a seal stops. Steps are numbered from 0. For one step the first four come in
/// this order, where a step faults with the one or the other; the next two come after all steps.
#[derive(Clone, Copy, Debug, PartialEq, Eq)]
pub enum ReplayStop {
    /// The first page of the step's footprint that isn't open.
    Unopened { step: u32, page: u32 },
    /// The step faults, but not for want of words.
    Fault { step: u32, fault: Fault },
    /// The step reads more words than are left.
    WordsShort { step: u32 },
    /// The step halts and isn't the last.
    EndsEarly { step: u32 },
    /// All steps are done and so many words, at least one, are left.
    WordsLeft { count: u64 },
    /// All is done, and this is the least open page in no footprint.
    Idle { page: u32 },
    /// There was no memory.
    Memory,
}

impl From<AllocError> for ReplayStop {
    ghost from_gives = { λ _ stop. stop ≡ Memory };

    fn from(_error: AllocError) -> ReplayStop {
        ReplayStop::Memory
    }
}

/// What stopped, in a word, and its numbers in decimal; nothing for want of memory.
impl fmt::Display for ReplayStop {
    ghost output = { λ stop. Some (replay_text stop) };

    #[tactic(auto, using(std::proofs::Common::append_assoc))]
    fn fmt<W: fmt::Write>(&self, f: &mut fmt::Formatter<W>) -> fmt::Result {
        match *self {
            ReplayStop::Unopened { step, page } => write!(f, "unopened {step} {page}"),
            ReplayStop::Fault { step, fault } => write!(f, "fault {step} {fault}"),
            ReplayStop::WordsShort { step } => write!(f, "words-short {step}"),
            ReplayStop::EndsEarly { step } => write!(f, "ends-early {step}"),
            ReplayStop::WordsLeft { count } => write!(f, "words-left {count}"),
            ReplayStop::Idle { page } => write!(f, "idle {page}"),
            ReplayStop::Memory => Ok(()),
        }
    }
}
