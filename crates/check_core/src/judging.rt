//! The judgement of bundles.
ghost use Rattle.std.specs.Prelude.{◌≡◌, Some, IfOk, IfErr, option_map};
ghost use Rattle.claim_types.specs.States.{state_digest};
ghost use Rattle.receipt_types.specs.Limits.{KeepsLimits};
ghost use Rattle.check_core.specs.Entries.{first_at};
ghost use Rattle.check_core.specs.Judgement.{Accepts};
ghost use Rattle.check_core.specs.Reports as spec;
ghost use Rattle.check_core.specs.Checking.{AreClaims, StopsCheck};

use crate::chains::chain_claims;
use crate::linking::test_links;
use crate::report::{ClaimList, Report};
use crate::reporting::entry_reports;
use crate::stop::CheckStop;
use claim_types::{SpanClaim, State, state_digest};
use digest_core::{Digest, Digester};
use receipt_types::Bundle;
use std::alloc::Global;

/// The digest of the state in which a bundle that keeps the limits of a receipt begins. It takes no memory.
pub fn first_id<D: Digester>(bundle: &Bundle) -> Digest
    requires { KeepsLimits bundle.now }
    ensures { option_map (state_digest D.digest_of) (first_at D.digest_of bundle.now 0)
        ≡ Some result }
{
    let Some(entry) = bundle.entries.as_slice().first() else {
        unreachable!();
    };
    let Some(seal) = entry.seals.as_slice().first() else {
        unreachable!();
    };
    let first = State {
        pc: seal.pc,
        root: seal.tree.root::<D>(),
    };
    state_digest::<D>(&first)
}

/// What is known of the entries of a bundle that is accepted, in order: the claims of their chains, and their reports.
#[derive(Drop)]
pub struct Judged {
    pub claims: Vec<SpanClaim>,
    pub reports: ClaimList,
}

/// Judges a bundle that keeps the limits of a receipt under an image id, and gives its entries' claims and reports. Ok
/// comes exactly where it is accepted, and each stop but Memory exactly where it is the first; neither Malformed nor
/// Version comes.
pub fn judge<D: Digester>(alloc: Global, bundle: &Bundle, id: &Digest) -> Result<Judged, CheckStop>
    requires { KeepsLimits bundle.now }
    ensures accepted { IfOk result (λ _. Accepts D.digest_of bundle.now id.now) }
    ensures claims { IfOk result
        (λ judged. AreClaims D.digest_of bundle.now judged.claims.items) }
    ensures reports { IfOk result
        (λ judged. spec.entry_reports D.digest_of bundle.now ≡ Some judged.reports.items) }
    ensures stop { IfErr result (λ stop. StopsCheck D.digest_of bundle.now id.now stop) }
{
    let found = first_id::<D>(bundle);
    if found != *id {
        return Err(CheckStop::WrongImage(found));
    }
    let claims = chain_claims::<D>(alloc, bundle)?;
    let reports = entry_reports::<D>(alloc, bundle, claims.as_slice())?;
    test_links::<D>(bundle, claims.as_slice(), reports.as_slice())?;
    Ok(Judged { claims, reports })
}

/// Judges a bundle that keeps the limits of a receipt under an image id, and reports of it. Ok and each stop come as from
/// `judge`.
pub fn check_bundle<D: Digester>(
    alloc: Global,
    bundle: &Bundle,
    id: &Digest,
) -> Result<Report, CheckStop>
    requires { KeepsLimits bundle.now }
    ensures accepted { IfOk result (λ _. Accepts D.digest_of bundle.now id.now) }
    ensures report { IfOk result (λ report. spec.report_of D.digest_of bundle.now ≡ Some report) }
    ensures stop { IfErr result (λ stop. StopsCheck D.digest_of bundle.now id.now stop) }
{
    let Judged {
        mut claims,
        reports,
    } = judge::<D>(alloc, bundle, id)?;
    Ok(Report {
        journal: claims.swap_remove(0).journal,
        entries: reports,
    })
}
