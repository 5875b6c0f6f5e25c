ghost use Rattle.session.specs.Laws.{CutsChain, StretchesChain, SegmentsChain};

use digest_core::Digester;

/// The seals of a run's stretches chain to the claim of the whole.
pub fn segments_chain<D: Digester>()
    ensures halted { CutsChain D.digest_of }
    ensures split { StretchesChain D.digest_of }
    ensures segments { SegmentsChain D.digest_of }
{}
