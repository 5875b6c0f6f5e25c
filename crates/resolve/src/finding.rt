//! The entries that answer calls, by their claim digests.
ghost use Rattle.std.specs.Prelude.{◌≡◌, ◌≤◌, ◌++◌, List, length, map, All, Some, IfOk, OnOk, IfErr};
ghost use Rattle.receipt_types.specs.Bundles as plain;
ghost use Rattle.resolve.specs.Bundling.{placed_entries, links_for};
ghost use Rattle.resolve.specs.Resolving.{bundles_of};
ghost use Rattle.resolve.specs.Parts.{digests_of, place_in, Misses};

use crate::stop::ResolveStop;
use byte_cursor::ItemList;
use check_core::{Checked, EntryClaim};
use claim_types::ok_claim_digest;
use digest_core::{Digest, Digester};
use host_calls::AssumeCall;
use std::alloc::{AllocError, Global};

// The claim digests of the others' entries, in order.
pub(crate) fn claims_of<D: Digester>(
    alloc: Global,
    others: &[Checked<D>],
) -> Result<ItemList<Digest>, AllocError>
    ensures { IfOk result
        (λ claims. claims.items
        ≡ digests_of D.digest_of (placed_entries 1 (bundles_of others.now))) }
{
    let mut claims = ItemList::new(alloc);
    for other in others {
        add_claims(&mut claims, other.report().entries.as_slice())?;
    }
    Ok(claims)
}

// Appends the claim digests of reports.
fn add_claims(claims: &mut ItemList<Digest>, reports: &[EntryClaim]) -> Result<(), AllocError>
    ensures { OnOk result
        (claims.new.items ≡ claims.old.items ++ map (λ report. report.claim) reports.now) }
{
    for report in reports {
        claims.push(report.claim)?;
    }
    Ok(())
}

// For each call the number of the first entry that has the claim digest which it asks for, where the first of these entries
// has number 1.
pub(crate) fn find_links<D: Digester>(
    alloc: Global,
    calls: &[AssumeCall],
    claims: &[Digest],
) -> Result<ItemList<usize>, ResolveStop>
    ensures links { IfOk result
        (λ links. (entries : List plain.Entry) → claims.now ≡ digests_of D.digest_of entries →
        links_for D.digest_of entries calls.now ≡ Some links.items) }
    ensures low { IfOk result (λ links. All (λ link. link ≤ length claims.now) links.items) }
    ensures stop { IfErr result
        (λ stop. (entries : List plain.Entry) → claims.now ≡ digests_of D.digest_of entries →
        Misses D.digest_of entries calls.now stop) }
{
    let mut links = ItemList::new(alloc);
    for call in calls {
        let wanted = ok_claim_digest::<D>(&call.image, &call.journal);
        let Some(place) = place_of(claims, &wanted) else {
            return Err(ResolveStop::NoReceiptFor {
                call: links.len() as u64,
            });
        };
        links.push(place + 1)?;
    }
    Ok(links)
}

// The place of the first digest that is the wanted one.
fn place_of(claims: &[Digest], wanted: &Digest) -> Option<usize>
    ensures { result ≡ place_in wanted.now 0 claims.now }
{
    for (place, claim) in claims.iter().enumerate() {
        if claim == wanted {
            return Some(place);
        }
    }
    None
}
