ghost use Rattle.sha2.specs.Sha256.{sha256};
ghost use Rattle.check_core.specs.Laws.{FaithfulVouches, FaithfulOrCollides, Headline, HashedAreBytes, AcceptedUnstopped, CallsHold, AuditIsExact, ComparedAreHashed};

use digest_core::{Digester, ShaDigester};

/// An entry that agrees with an image's uncut run vouches for it.
pub fn faithful_vouches<D: Digester>()
    ensures { FaithfulVouches D.digest_of }
{}

/// An accepted bundle's entry vouches for each image of its first state, or there is a collision, which an
/// audit exhibits exactly where the entry doesn't agree with the image's uncut run.
pub fn headline<D: Digester>()
    ensures faithful { FaithfulOrCollides D.digest_of }
    ensures vouches { Headline D.digest_of }
    ensures audit { AuditIsExact D.digest_of }
{}

/// The headline for SHA-256.
pub fn headline_of_sha()
    ensures { Headline sha256 }
{
    headline::<ShaDigester>();
}

/// All that is hashed for a bundle and an image are bytes, and what an audit compares is among it.
pub fn hashed_are_bytes<D: Digester>()
    ensures bytes { HashedAreBytes D.digest_of }
    ensures compared { ComparedAreHashed D.digest_of }
{}

/// A bundle is accepted exactly where nothing stops it.
pub fn accepted_unstopped<D: Digester>()
    ensures { AcceptedUnstopped D.digest_of }
{}

/// What an accepted entry assumes of other images holds of their uncut runs, or there is a collision.
pub fn calls_hold<D: Digester>()
    ensures { CallsHold D.digest_of }
{}
