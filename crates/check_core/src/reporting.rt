//! What is reported of the entries of a bundle.
ghost use Rattle.std.specs.Prelude.{◌≡◌, ◌≤◌, length, map, Some, IfOk};
ghost use Rattle.std.specs.Arc.{arc_value};
ghost use Rattle.receipt_types.specs.Limits.{AllSealLimits, KeepsLimits};
ghost use Rattle.receipt_types.specs.Seals as plain;
ghost use Rattle.check_core.specs.Reports as spec;
ghost use Rattle.check_core.specs.Checking.{AreClaims};
ghost use Rattle.receipt_types.specs.declared.sizes.TheConstants.{MOST_SEALS};

use crate::report::{ClaimList, EntryClaim};
use claim_types::{Exit, SpanClaim, claim_digest, conditional_digest, state_digest};
use digest_core::{Digester, hash};
use receipt_types::{Bundle, Entry, LinkList, Seal};
use std::alloc::{AllocError, Global};
use std::sync::Arc;

// The reports of a bundle's entries, whose claims these are.
pub(crate) fn entry_reports<D: Digester>(
    alloc: Global,
    bundle: &Bundle,
    claims: &[SpanClaim],
) -> Result<ClaimList, AllocError>
    requires limits { KeepsLimits bundle.now }
    requires claims { AreClaims D.digest_of bundle.now claims.now }
    ensures { IfOk result
        (λ reports. spec.entry_reports D.digest_of bundle.now ≡ Some reports.items) }
{
    let mut reports = ClaimList::new(alloc);
    for (entry, claim) in bundle.entries.as_slice().iter().zip(claims) {
        reports.push(entry_report::<D>(alloc, entry, claim)?)?;
    }
    Ok(reports)
}

/// The report of an entry that has at most 65,535 seals, each within the limits of a receipt, where this is the claim of
/// their chain. An AllocError is want of memory.
pub fn entry_report<D: Digester>(
    alloc: Global,
    entry: &Entry,
    claim: &SpanClaim,
) -> Result<EntryClaim, AllocError>
    requires few { length entry.now.seals ≤ MOST_SEALS }
    requires limits { AllSealLimits entry.now.seals }
    ensures { IfOk result (λ report. report ≡ spec.entry_report D.digest_of entry.now claim.now) }
{
    let mut links = LinkList::new(alloc);
    links.extend(entry.links.as_slice())?;
    Ok(EntryClaim {
        image: state_digest::<D>(&claim.before),
        exit: code_of(claim.exit),
        journal_bytes: claim.journal.len() as u64,
        journal_digest: hash::<D>(claim.journal.as_slice()),
        conditional: conditional_digest::<D>(claim),
        claim: claim_digest::<D>(claim),
        calls: claim.calls.len() as u64,
        seals: entry.seals.len() as u32,
        steps: steps_of(entry.seals.as_slice()),
        links,
    })
}

// The exit code of a claim that halts, and 0 of another.
fn code_of(exit: Exit) -> u32
    ensures { result ≡ spec.code_of exit }
{
    match exit {
        Exit::Halted(code) => code,
        Exit::Split => 0,
    }
}

// The sum of the steps of seals.
fn steps_of(seals: &[Arc<Seal, Global>]) -> u64
    requires few { length seals.now ≤ MOST_SEALS }
    requires limits { AllSealLimits (map (λ seal. arc_value seal) seals.now) }
    ensures { result ≡ plain.steps_of (map (λ seal. arc_value seal) seals.now) }
{
    let mut steps = 0u64;
    for seal in seals {
        steps += u64::from(seal.steps);
    }
    steps
}
