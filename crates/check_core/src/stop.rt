ghost use Rattle.std.specs.Prelude.{◌≡◌, Some};
ghost use Rattle.check_core.specs.declared.stop.CheckStop.TheVariants.{Memory};
ghost use Rattle.check_core.specs.Checking.{stop_of_bytes};
ghost use Rattle.check_core.specs.Text.{reason_text};

use claim_types::State;
use digest_core::Digest;
use receipt_codec::ReadStop;
use seal_replay::ReplayStop;
use std::alloc::AllocError;
use std::fmt;

/// Why a check refuses. Entries, seals and calls are numbered from 0. The first that holds is answered: the bytes come
/// first, then the image, then entry by entry each seal's replay, its beginning and its end, then each entry's links.
#[derive(Clone, Copy, Debug, PartialEq, Eq)]
pub enum CheckStop {
    /// The bytes spell no bundle, and don't begin with another version.
    Malformed,
    /// The bytes begin with this other version.
    Version(u16),
    /// This digest of the first entry's first state isn't the id.
    WrongImage(Digest),
    /// The replay of this seal stops.
    Broken {
        entry: u16,
        seal: u32,
        stop: ReplayStop,
    },
    /// The seal before this one ends in another state than this one begins in.
    Unjoined {
        entry: u16,
        seal: u32,
        after: State,
        before: State,
    },
    /// This seal halts and isn't the entry's last.
    EndInside {
        entry: u16,
        seal: u32,
    },
    /// The entry's last seal doesn't halt.
    NoEnd {
        entry: u16,
    },
    /// The entry has so many assumption calls, and another number of links.
    LinkCount {
        entry: u16,
        calls: u64,
        links: u32,
    },
    /// This call wants another claim digest than that of the entry to which it is linked.
    BadLink {
        entry: u16,
        call: u32,
        wanted: Digest,
        found: Digest,
    },
    /// There was no memory.
    Memory,
}

impl From<ReadStop> for CheckStop {
    ghost from_gives = { λ stop refusal. refusal ≡ stop_of_bytes stop };

    fn from(stop: ReadStop) -> CheckStop {
        match stop {
            ReadStop::Malformed => CheckStop::Malformed,
            ReadStop::Version(version) => CheckStop::Version(version),
            ReadStop::Memory => CheckStop::Memory,
        }
    }
}

impl From<AllocError> for CheckStop {
    ghost from_gives = { λ _ stop. stop ≡ Memory };

    fn from(_error: AllocError) -> CheckStop {
        CheckStop::Memory
    }
}

/// What stopped, in a word, its numbers in decimal, and its digests and states; nothing for want of memory.
impl fmt::Display for CheckStop {
    ghost output = { λ stop. Some (reason_text stop) };

    #[tactic(auto, using(std::proofs::Common::append_assoc))]
    fn fmt<W: fmt::Write>(&self, f: &mut fmt::Formatter<W>) -> fmt::Result {
        match *self {
            CheckStop::Malformed => f.write_str("malformed"),
            CheckStop::Version(version) => write!(f, "version {version}"),
            CheckStop::WrongImage(found) => write!(f, "image {found}"),
            CheckStop::Broken { entry, seal, stop } => write!(f, "seal {entry} {seal} {stop}"),
            CheckStop::Unjoined {
                entry,
                seal,
                after,
                before,
            } => write!(f, "unjoined {entry} {seal} {after} {before}"),
            CheckStop::EndInside { entry, seal } => write!(f, "end-inside {entry} {seal}"),
            CheckStop::NoEnd { entry } => write!(f, "no-end {entry}"),
            CheckStop::LinkCount {
                entry,
                calls,
                links,
            } => write!(f, "link-count {entry} {calls} {links}"),
            CheckStop::BadLink {
                entry,
                call,
                wanted,
                found,
            } => write!(f, "link {entry} {call} {wanted} {found}"),
            CheckStop::Memory => Ok(()),
        }
    }
}
