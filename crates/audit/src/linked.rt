//! The entries that an entry's calls are linked to.
ghost use Rattle.std.specs.Prelude.{◌≡◌, ◌<◌, ◌≤◌, length, All, Some, IfOk, option_map};
ghost use Rattle.receipt_types.specs.Bundles as plain;
ghost use Rattle.receipt_types.specs.declared.sizes.TheConstants.{MOST_LINKS};
ghost use Rattle.check_core.specs.Auditing.{link_pair, calls_pair};
ghost use Rattle.audit.specs.Places.{link_place, calls_place};
ghost use Rattle.audit.specs.Walking.{TellClaims};

use crate::disagreement::{Disagreement, Place, compare};
use crate::strings::{claim_string, ok_string, output_string};
use claim_types::SpanClaim;
use digest_core::{Digester, hash};
use host_calls::AssumeCall;
use std::alloc::{AllocError, Global};

// The first of these calls that asks for another claim string or output string than those of the entry that it is linked to.
pub(crate) fn first_linked<D: Digester>(
    alloc: Global,
    claims: &[SpanClaim],
    calls: &[AssumeCall],
    links: &[u16],
) -> Result<Option<Disagreement>, AllocError>
    requires same { length calls.now ≡ length links.now }
    requires few { length links.now ≤ MOST_LINKS }
    requires links { All (λ link. link < length claims.now) links.now }
    ensures pair { IfOk result
        (λ found. (B : plain.Bundle) → TellClaims D.digest_of B claims.now →
        option_map (λ found. found.pair) found
        ≡ calls_pair D.digest_of B calls.now links.now) }
    ensures place { IfOk result
        (λ found. (B : plain.Bundle) → TellClaims D.digest_of B claims.now →
        option_map (λ found. found.place) found
        ≡ calls_place D.digest_of B 0 calls.now links.now) }
{
    let mut number = 0u32;
    for (call, link) in calls.iter().zip(links) {
        let claim = &claims[usize::from(*link)];
        if let Some(found) = compare_linked::<D>(alloc, number, claim, call)? {
            return Ok(Some(found));
        }
        number += 1;
    }
    Ok(None)
}

// Where the claim of a linked entry and what a call asks for differ: in the claim strings, or else in the output strings.
fn compare_linked<D: Digester>(
    alloc: Global,
    number: u32,
    claim: &SpanClaim,
    call: &AssumeCall,
) -> Result<Option<Disagreement>, AllocError>
    ensures pair { IfOk result
        (λ found. option_map (λ found. found.pair) found
        ≡ link_pair D.digest_of (Some claim.now) call.now) }
    ensures place { IfOk result
        (λ found. option_map (λ found. found.place) found
        ≡ link_place D.digest_of number (Some claim.now) call.now) }
{
    let linked = claim_string::<D>(alloc, claim)?;
    let asked = ok_string::<D>(alloc, call)?;
    let claimed = compare(Place::Claim { call: number }, linked, asked);
    if claimed.is_some() {
        return Ok(claimed);
    }
    let linked = output_string::<D>(alloc, &hash::<D>(claim.journal.as_slice()))?;
    let asked = output_string::<D>(alloc, &call.journal)?;
    Ok(compare(Place::Output { call: number }, linked, asked))
}
