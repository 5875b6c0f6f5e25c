//! What is hashed for states, outputs and claims.
ghost use Rattle.std.specs.Prelude.{◌≡◌, ◌^◌, ◌<◌, [], ◌∷◌, length, IfOk};
ghost use Rattle.digest_core.specs.Tagged.{tag_string};
ghost use Rattle.claim_types.specs.States as states;
ghost use Rattle.claim_types.specs.Claims as claims;

use byte_cursor::{ByteList, Out};
use claim_types::{Exit, SpanClaim, State, state_digest};
use digest_core::{Digest, Digester, hash};
use host_calls::AssumeCall;
use std::alloc::{AllocError, Global};

// What is hashed for a state, 70 bytes.
#[tactic(auto, unfolding(claim_types::specs::States::state_tag))]
pub(crate) fn state_string<D: Digester>(
    alloc: Global,
    state: &State,
) -> Result<ByteList, AllocError>
    ensures { IfOk result (λ string. string.items ≡ states.state_string D.digest_of state.now) }
{
    tag_string::<D>(alloc, "seal.SystemState", &[state.root], &[state.pc])
}

// What is hashed for an output without assumptions whose journal has this digest, 98 bytes.
#[tactic(auto, unfolding(claim_types::specs::Claims::output_tag))]
pub(crate) fn output_string<D: Digester>(
    alloc: Global,
    journal: &Digest,
) -> Result<ByteList, AllocError>
    ensures { IfOk result (λ string. string.items
        ≡ claims.output_string D.digest_of journal.now states.zero_digest) }
{
    tag_string::<D>(alloc, "seal.Output", &[*journal, zero_digest()], &[])
}

// What is hashed for a claim without assumptions, 170 bytes.
pub(crate) fn claim_string<D: Digester>(
    alloc: Global,
    claim: &SpanClaim,
) -> Result<ByteList, AllocError>
    ensures { IfOk result (λ string. string.items ≡ claims.claim_string D.digest_of claim.now) }
{
    let journal = hash::<D>(claim.journal.as_slice());
    let output = hash::<D>(output_string::<D>(alloc, &journal)?.as_slice());
    let before = state_digest::<D>(&claim.before);
    let after = state_digest::<D>(&claim.after);
    string_of_parts::<D>(alloc, &before, &after, &output, claim.exit)
}

// What is hashed for the claim that a call asks for, 170 bytes.
pub(crate) fn ok_string<D: Digester>(
    alloc: Global,
    call: &AssumeCall,
) -> Result<ByteList, AllocError>
    ensures { IfOk result (λ string. string.items ≡ claims.ok_string D.digest_of call.now) }
{
    let output = hash::<D>(output_string::<D>(alloc, &call.journal)?.as_slice());
    let after = state_digest::<D>(&State::halted());
    string_of_parts::<D>(alloc, &call.image, &after, &output, Exit::Halted(0))
}

// What is hashed for a claim, from the digests of its two states and its output.
#[tactic(auto, unfolding(claim_types::specs::Claims::claim_tag))]
fn string_of_parts<D: Digester>(
    alloc: Global,
    before: &Digest,
    after: &Digest,
    output: &Digest,
    exit: Exit,
) -> Result<ByteList, AllocError>
    ensures { IfOk result (λ string. string.items
        ≡ claims.claim_string_of D.digest_of before.now after.now output.now exit) }
{
    let words = exit_pair(exit);
    tag_string::<D>(
        alloc,
        "seal.ReceiptClaim",
        &[zero_digest(), *before, *after, *output],
        &words,
    )
}

// System exit and user exit.
fn exit_pair(exit: Exit) -> [u32; 2]
    ensures { result ≡ claims.exit_pair exit }
{
    match exit {
        Exit::Split => [2, 0],
        Exit::Halted(code) => [0, code],
    }
}

// 32 zero bytes.
fn zero_digest() -> Digest
    ensures { result ≡ states.zero_digest }
{
    Digest::of(&[0; 32])
}

// A tagged string: the tag's digest, the digests, the words and the number of digests.
fn tag_string<D: Digester>(
    alloc: Global,
    tag: &str,
    downs: &[Digest],
    words: &[u32],
) -> Result<ByteList, AllocError>
    requires { length downs.now < 2 ^ 16 }
    ensures { IfOk result
        (λ string. string.items ≡ tag_string D.digest_of tag.now downs.now words.now) }
{
    let mut out = Out::new(alloc);
    out.put_all(hash::<D>(tag.as_bytes()).bytes())?;
    for down in downs {
        out.put_all(down.bytes())?;
    }
    for word in words {
        out.put_u32(*word)?;
    }
    out.put_u16(downs.len() as u16)?;
    Ok(out.finish())
}
