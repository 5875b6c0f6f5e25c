//! The links of entries: whether the entry that a call is linked to has the claim digest that the call asks for.
ghost use Rattle.std.specs.Prelude.{◌≡◌, ℕ, ◌<◌, ◌≤◌, length, All, Some, None, IfOk, IfErr};
ghost use Rattle.receipt_types.specs.Bundles as plain;
ghost use Rattle.receipt_types.specs.Limits.{KeepsLimits};
ghost use Rattle.check_core.specs.Judgement.{calls_stop, links_stop, all_links_stop};
ghost use Rattle.check_core.specs.Reports as spec;
ghost use Rattle.check_core.specs.Checking.{AreClaims, TellDigests};
ghost use Rattle.receipt_types.specs.declared.sizes.TheConstants.{MOST_LINKS};

use crate::report::EntryClaim;
use crate::stop::CheckStop;
use claim_types::{SpanClaim, ok_claim_digest};
use digest_core::Digester;
use host_calls::AssumeCall;
use receipt_types::{Bundle, Entry};

// Tests the links of a bundle's entries, whose claims and reports these are.
pub(crate) fn test_links<D: Digester>(
    bundle: &Bundle,
    claims: &[SpanClaim],
    reports: &[EntryClaim],
) -> Result<(), CheckStop>
    requires limits { KeepsLimits bundle.now }
    requires claims { AreClaims D.digest_of bundle.now claims.now }
    requires reports { spec.entry_reports D.digest_of bundle.now ≡ Some reports.now }
    ensures ok { IfOk result (λ _. all_links_stop D.digest_of bundle.now 0 bundle.now ≡ None) }
    ensures stop { IfErr result
        (λ stop. all_links_stop D.digest_of bundle.now 0 bundle.now ≡ Some stop) }
{
    let mut number = 0u16;
    for (entry, claim) in bundle.entries.as_slice().iter().zip(claims) {
        test_entry::<D>(number, entry, claim, reports)?;
        number += 1;
    }
    Ok(())
}

// Tests that an entry has as many links as its claim has calls, and then each of them.
fn test_entry<D: Digester>(
    number: u16,
    entry: &Entry,
    claim: &SpanClaim,
    reports: &[EntryClaim],
) -> Result<(), CheckStop>
    requires few { length entry.now.links ≤ MOST_LINKS }
    requires links { All (λ link. link < length reports.now) entry.now.links }
    ensures ok { IfOk result
        (λ _. (B : plain.Bundle) → TellDigests D.digest_of B reports.now →
        links_stop D.digest_of B number (Some claim.now) entry.now.links ≡ None) }
    ensures stop { IfErr result
        (λ stop. (B : plain.Bundle) → TellDigests D.digest_of B reports.now →
        links_stop D.digest_of B number (Some claim.now) entry.now.links ≡ Some stop) }
{
    let calls = claim.calls.as_slice();
    let links = entry.links.as_slice();
    if calls.len() != links.len() {
        return Err(CheckStop::LinkCount {
            entry: number,
            calls: calls.len() as u64,
            links: links.len() as u32,
        });
    }
    test_calls::<D>(number, calls, links, reports)
}

// Tests the link of each of an entry's calls.
fn test_calls<D: Digester>(
    number: u16,
    calls: &[AssumeCall],
    links: &[u16],
    reports: &[EntryClaim],
) -> Result<(), CheckStop>
    requires same { length calls.now ≡ length links.now }
    requires few { length links.now ≤ MOST_LINKS }
    requires links { All (λ link. link < length reports.now) links.now }
    ensures ok { IfOk result
        (λ _. (B : plain.Bundle) → TellDigests D.digest_of B reports.now →
        calls_stop D.digest_of B number 0 calls.now links.now ≡ None) }
    ensures stop { IfErr result
        (λ stop. (B : plain.Bundle) → TellDigests D.digest_of B reports.now →
        calls_stop D.digest_of B number 0 calls.now links.now ≡ Some stop) }
{
    let mut place = 0u32;
    for (call, link) in calls.iter().zip(links) {
        let wanted = ok_claim_digest::<D>(&call.image, &call.journal);
        let report = &reports[usize::from(*link)];
        if wanted != report.claim {
            return Err(CheckStop::BadLink {
                entry: number,
                call: place,
                wanted,
                found: report.claim,
            });
        }
        place += 1;
    }
    Ok(())
}
