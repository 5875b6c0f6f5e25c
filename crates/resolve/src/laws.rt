ghost use Rattle.resolve.specs.Laws.{ResolvedIsAccepted, ResolvedKeepsLimits};

use digest_core::Digester;

/// A bundle that is put together of accepted parts is accepted.
pub fn resolved_is_accepted<D: Digester>()
    ensures { ResolvedIsAccepted D.digest_of }
{}

/// It keeps the limits of a receipt, where its parts do.
pub fn resolved_keeps_limits<D: Digester>()
    ensures { ResolvedKeepsLimits D.digest_of }
{}
