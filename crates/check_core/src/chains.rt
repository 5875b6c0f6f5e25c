//! The claims of entries: each is that of the chain of its seals.
ghost use Rattle.std.specs.Prelude.{◌≡◌, ◌≢◌, ◌⊎◌, ◌≤◌, [], length, Some, None, IfOk, IfErr, option_map};
ghost use Rattle.claim_types.specs.Claims as spec;
ghost use Rattle.receipt_types.specs.Limits.{SealLimits, AllSealLimits, KeepsLimits};
ghost use Rattle.seal_replay.specs.Claiming.{claim_of};
ghost use Rattle.lift_join.specs.Joins.{chain_of};
ghost use Rattle.check_core.specs.declared.stop.CheckStop.TheVariants.{Memory};
ghost use Rattle.check_core.specs.Judgement.{joint_stop, exit_stop, seal_stop, seals_stop, entries_stop};
ghost use Rattle.check_core.specs.Checking.{AreClaims, broken_by, join_next};
ghost use Rattle.receipt_types.specs.declared.sizes.TheConstants.{MOST_SEALS};

use crate::stop::CheckStop;
use claim_types::{Exit, SpanClaim, State};
use digest_core::Digester;
use lift_join::append;
use receipt_types::{Bundle, Entry, Seal};
use seal_replay::{ReplayStop, replay};
use std::alloc::Global;

// The claims of a bundle's entries.
pub(crate) fn chain_claims<D: Digester>(
    alloc: Global,
    bundle: &Bundle,
) -> Result<Vec<SpanClaim>, CheckStop>
    requires { KeepsLimits bundle.now }
    ensures unstopped { IfOk result (λ _. entries_stop D.digest_of 0 bundle.now ≡ None) }
    ensures claims { IfOk result (λ claims. AreClaims D.digest_of bundle.now claims.items) }
    ensures stop { IfErr result
        (λ stop. (stop ≡ Memory) ⊎ (entries_stop D.digest_of 0 bundle.now ≡ Some stop)) }
{
    let mut claims = Vec::new(alloc);
    let mut number = 0u16;
    for entry in bundle.entries.as_slice() {
        let claim = chain_claim::<D>(alloc, number, entry)?;
        if claims.push(claim).is_err() {
            return Err(CheckStop::Memory);
        }
        number += 1;
    }
    Ok(claims)
}

// The claim of an entry's chain of seals.
fn chain_claim<D: Digester>(
    alloc: Global,
    number: u16,
    entry: &Entry,
) -> Result<SpanClaim, CheckStop>
    requires some { entry.now.seals ≢ [] }
    requires few { length entry.now.seals ≤ MOST_SEALS }
    requires limits { AllSealLimits entry.now.seals }
    ensures unstopped { IfOk result
        (λ _. seals_stop D.digest_of number 0 None entry.now.seals ≡ None) }
    ensures chain { IfOk result (λ claim. chain_of D.digest_of entry.now.seals ≡ Some claim) }
    ensures stop { IfErr result
        (λ stop. (stop ≡ Memory)
        ⊎ (seals_stop D.digest_of number 0 None entry.now.seals ≡ Some stop)) }
{
    let seals = entry.seals.as_slice();
    let mut chain = None;
    let mut place = 0u32;
    for seal in seals {
        let is_last = place as usize + 1 == seals.len();
        chain = Some(with_seal::<D>(alloc, number, place, is_last, chain, seal)?);
        place += 1;
    }
    match chain {
        Some(claim) => Ok(claim),
        None => unreachable!(),
    }
}

// The claim of the seals of an entry up to this one, from that of those before it.
fn with_seal<D: Digester>(
    alloc: Global,
    number: u16,
    place: u32,
    is_last: bool,
    chain: Option<SpanClaim>,
    seal: &Seal,
) -> Result<SpanClaim, CheckStop>
    requires { SealLimits seal.now }
    ensures unstopped { IfOk result
        (λ _. seal_stop D.digest_of number place (option_map (λ claim. claim.after) chain) seal.now
        is_last ≡ None) }
    ensures joined { IfOk result
        (λ claim. (next : spec.SpanClaim) × (claim_of D.digest_of seal.now ≡ Some next)
        × (claim ≡ join_next chain next)) }
    ensures stop { IfErr result
        (λ stop. (stop ≡ Memory)
        ⊎ (seal_stop D.digest_of number place (option_map (λ claim. claim.after) chain) seal.now
        is_last ≡ Some stop)) }
{
    let claim = match replay::<D>(alloc, seal) {
        Ok(claim) => claim,
        Err(stop) => return Err(broken(number, place, stop)),
    };
    joint(number, place, &chain, &claim.before)?;
    end(number, place, claim.exit, is_last)?;
    let Some(mut whole) = chain else {
        return Ok(claim);
    };
    match append(&mut whole, claim) {
        Ok(()) => Ok(whole),
        Err(_) => Err(CheckStop::Memory),
    }
}

// The stop of a seal whose replay stops.
fn broken(entry: u16, seal: u32, stop: ReplayStop) -> CheckStop
    ensures { result ≡ broken_by entry seal stop }
{
    match stop {
        ReplayStop::Memory => CheckStop::Memory,
        stop => CheckStop::Broken { entry, seal, stop },
    }
}

// Tests that a seal begins where the claim of those before it ends, if there are any.
fn joint(entry: u16, seal: u32, chain: &Option<SpanClaim>, before: &State) -> Result<(), CheckStop>
    ensures ok { IfOk result
        (λ _. joint_stop entry seal (option_map (λ claim. claim.after) chain.now)
        before.now ≡ None) }
    ensures stop { IfErr result
        (λ stop. joint_stop entry seal (option_map (λ claim. claim.after) chain.now) before.now
        ≡ Some stop) }
{
    match chain {
        Some(claim) if claim.after != *before => Err(CheckStop::Unjoined {
            entry,
            seal,
            after: claim.after,
            before: *before,
        }),
        _ => Ok(()),
    }
}

// Tests that a seal halts where it is the last, and there alone.
fn end(entry: u16, seal: u32, exit: Exit, is_last: bool) -> Result<(), CheckStop>
    ensures ok { IfOk result (λ _. exit_stop entry seal exit is_last ≡ None) }
    ensures stop { IfErr result (λ stop. exit_stop entry seal exit is_last ≡ Some stop) }
{
    match exit {
        Exit::Halted(_) if !is_last => Err(CheckStop::EndInside { entry, seal }),
        Exit::Split if is_last => Err(CheckStop::NoEnd { entry }),
        _ => Ok(()),
    }
}
