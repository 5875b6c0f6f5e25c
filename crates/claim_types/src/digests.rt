ghost use Rattle.std.specs.Prelude.{◌≡◌};
ghost use Rattle.claim_types.specs.States as states;
ghost use Rattle.claim_types.specs.Claims as claims;

use crate::claim::{Exit, SpanClaim};
use crate::state::State;
use digest_core::{Digest, Digester, hash, tagged};

// 32 zero bytes.
fn zero_digest() -> Digest
    ensures { result ≡ states.zero_digest }
{
    Digest::of(&[0; 32])
}

/// The digest of a state. It takes no memory.
#[tactic(auto, unfolding(crate::specs::States::state_tag))]
pub fn state_digest<D: Digester>(state: &State) -> Digest
    ensures { result ≡ states.state_digest D.digest_of state.now }
{
    tagged::<D>("seal.SystemState", &[state.root], &[state.pc])
}

// The digest of an output: a journal's digest and that of the assumptions.
#[tactic(auto, unfolding(crate::specs::Claims::output_tag))]
fn output_digest<D: Digester>(journal: &Digest, assumptions: &Digest) -> Digest
    ensures { result ≡ D.digest_of (claims.output_string D.digest_of journal.now assumptions.now) }
{
    tagged::<D>("seal.Output", &[*journal, *assumptions], &[])
}

// System exit and user exit.
fn exit_pair(exit: Exit) -> [u32; 2]
    ensures { result ≡ claims.exit_pair exit }
{
    match exit {
        Exit::Split => [2, 0],
        Exit::Halted(code) => [0, code],
    }
}

// The digest of a claim, from the digests of its two states and its output.
#[tactic(auto, unfolding(crate::specs::Claims::claim_tag))]
fn digest_of_parts<D: Digester>(
    before: &Digest,
    after: &Digest,
    output: &Digest,
    exit: Exit,
) -> Digest
    ensures { result
        ≡ D.digest_of (claims.claim_string_of D.digest_of before.now after.now output.now exit) }
{
    let words = exit_pair(exit);
    tagged::<D>(
        "seal.ReceiptClaim",
        &[zero_digest(), *before, *after, *output],
        &words,
    )
}

// The digest of a claim with this digest of its assumptions.
fn digest_with<D: Digester>(claim: &SpanClaim, assumptions: &Digest) -> Digest
    ensures { result
        ≡ D.digest_of (claims.claim_string_with D.digest_of claim.now
        (claims.output_string D.digest_of (D.digest_of claim.now.journal) assumptions.now)) }
{
    let journal = hash::<D>(claim.journal.as_slice());
    let output = output_digest::<D>(&journal, assumptions);
    let before = state_digest::<D>(&claim.before);
    let after = state_digest::<D>(&claim.after);
    digest_of_parts::<D>(&before, &after, &output, claim.exit)
}

/// The claim digest: that of the claim with no assumptions. It takes no memory.
pub fn claim_digest<D: Digester>(claim: &SpanClaim) -> Digest
    ensures { result ≡ claims.claim_digest D.digest_of claim.now }
{
    digest_with::<D>(claim, &zero_digest())
}

/// The digest of the claim that an assumption names: the image of this id halts with 0 and a journal
/// of this digest. It takes no memory.
pub fn ok_claim_digest<D: Digester>(image: &Digest, journal: &Digest) -> Digest
    ensures { result
        ≡ claims.ok_digest D.digest_of (record { image = image.now; journal = journal.now }) }
{
    let output = output_digest::<D>(journal, &zero_digest());
    let after = state_digest::<D>(&State::halted());
    digest_of_parts::<D>(image, &after, &output, Exit::Halted(0))
}

/// The conditional digest: that of the claim with its calls as assumptions. It takes no memory.
#[tactic(auto, unfolding(crate::specs::Claims::assumptions_tag))]
pub fn conditional_digest<D: Digester>(claim: &SpanClaim) -> Digest
    ensures { result ≡ claims.conditional_digest D.digest_of claim.now }
{
    let calls = claim.calls.as_slice();
    let mut assumptions = zero_digest();
    let mut at = calls.len();
    while at > 0 {
        at -= 1;
        let call = &calls[at];
        let ok = ok_claim_digest::<D>(&call.image, &call.journal);
        assumptions = tagged::<D>("seal.Assumptions", &[ok, assumptions], &[]);
    }
    digest_with::<D>(claim, &assumptions)
}
