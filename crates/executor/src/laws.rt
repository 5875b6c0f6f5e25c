ghost use Rattle.executor.specs.Laws.{StretchesReplay, StretchesClaim, SegmentsCover, DoneToOutcome, CutsKeepLimits};

use digest_core::Digester;

/// The seal of a stretch of a run replays without a stop, and claims what the run does there.
pub fn stretches_replay<D: Digester>()
    ensures replay { StretchesReplay D.digest_of }
    ensures claim { StretchesClaim D.digest_of }
{}

/// The segments of a run are not empty and have all steps that are done, which are those up to its outcome.
pub fn segments_cover()
    ensures cover { SegmentsCover }
    ensures outcome { DoneToOutcome }
{}

/// The seals of an image's run keep the limits of a receipt.
pub fn cuts_keep_limits<D: Digester>()
    ensures { CutsKeepLimits D.digest_of }
{}
