ghost use Rattle.std.specs.Prelude.{◌≡◌, ◌<◌, ◌≤◌, ℕ, length, IfOk, IfErr};
ghost use Rattle.claim_types.specs.declared.claim.Exit.TheVariants.{Halted as HaltedWith};
ghost use Rattle.claim_types.specs.States.{state_digest};
ghost use Rattle.receipt_types.specs.Limits.{AllSealLimits, KeepsLimits};
ghost use Rattle.check_core.specs.Judgement.{Accepts};
ghost use Rattle.resolve.specs.Resolving.{bundles_of, IsResolved, StopsResolve};
ghost use Rattle.receipt_types.specs.declared.sizes.TheConstants.{MOST_LINKS, MOST_SEALS};

use crate::entries::{add_bundle, first_entry};
use crate::finding::{claims_of, find_links};
use crate::stop::ResolveStop;
use check_core::Checked;
use digest_core::Digester;
use lift_join::Joined;
use receipt_types::{Bundle, EntryList, MOST_ENTRIES};
use std::alloc::Global;

/// The bundle of what is proved of a run that halts, which is a premise, and of other bundles: entry 0 has the proved seals,
/// and each of its calls is linked to the first entry after it that has the claim digest which the call asks for; then come
/// the others' entries in order. It is accepted under the digest of the run's first state.
///
/// NoReceiptFor comes exactly for the first call that no entry answers, and then TooManyEntries exactly where there are more
/// than 256 entries, entry 0 among them.
pub fn resolve<D: Digester>(
    alloc: Global,
    joined: &Joined<D>,
    others: &[Checked<D>],
) -> Result<Bundle, ResolveStop>
    requires halted { (code : ℕ) × (joined.now.claim.exit ≡ HaltedWith code) }
    ensures bundle { IfOk result
        (λ bundle. IsResolved D.digest_of joined.now (bundles_of others.now) bundle) }
    ensures accepted { IfOk result
        (λ bundle. Accepts D.digest_of bundle (state_digest D.digest_of joined.now.claim.before)) }
    // It keeps the limits of a receipt, where what is proved does, as the others do.
    ensures limits { IfOk result
        (λ bundle. AllSealLimits joined.now.seals → 0 < length joined.now.seals →
        length joined.now.seals ≤ MOST_SEALS → length joined.now.claim.calls ≤ MOST_LINKS → KeepsLimits bundle) }
    ensures stop { IfErr result
        (λ stop. StopsResolve D.digest_of joined.now.claim.calls (bundles_of others.now) stop) }
{
    let claims = claims_of(alloc, others)?;
    let links = find_links::<D>(alloc, joined.claim().calls.as_slice(), claims.as_slice())?;
    let count = claims.len() + 1;
    if count > MOST_ENTRIES as usize {
        return Err(ResolveStop::TooManyEntries {
            count: count as u64,
        });
    }
    let mut entries = EntryList::new(alloc);
    entries.push(first_entry(alloc, joined, links.as_slice())?)?;
    for other in others {
        add_bundle(alloc, &mut entries, other.bundle())?;
    }
    Ok(Bundle { entries })
}
