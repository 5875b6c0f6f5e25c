//! The audit of an entry.
ghost use Rattle.std.specs.Prelude.{◌≡◌, ◌↔◌, ◌<◌, length, IfOk, IfErr, IfSome, IsNone, option_map};
ghost use Rattle.page_core.specs.Images.{IsImage};
ghost use Rattle.page_core.specs.Stored.{IsStoredFrom};
ghost use Rattle.elf_image.specs.Loaded.{image_of};
ghost use Rattle.claim_types.specs.States.{image_state};
ghost use Rattle.receipt_types.specs.Limits.{KeepsLimits};
ghost use Rattle.check_core.specs.Auditing.{audit_pair};
ghost use Rattle.check_core.specs.Checking.{AreClaims};
ghost use Rattle.check_core.specs.Checked.{IsAccepted};
ghost use Rattle.check_core.specs.Vouching.{Faithful};
ghost use Rattle.audit.specs.Answers.{IsAuditable, Finds, StopsAudit};
ghost use Rattle.audit.specs.Laws.{StandAt};
ghost use Rattle.audit.specs.Places.{place_in};

use crate::disagreement::{Disagreement, Place, compare};
use crate::finding::Finding;
use crate::linked::first_linked;
use crate::stop::AuditStop;
use crate::strings::state_string;
use crate::walk::{first_split_seal, words_of};
use check_core::{first_id, judge};
use claim_types::{SpanClaim, State, state_digest};
use digest_core::Digester;
use elf_image::Image;
use page_tree::PageTree;
use receipt_types::Bundle;
use std::alloc::{AllocError, Global};

/// Audits an entry, by its number from 0, of a bundle that keeps the limits of a receipt, against the image of its
/// first state: runs the image on the words of the entry's seals, and compares what is hashed for the receipt with what
/// is hashed for the run. It is sound exactly where the entry agrees with the run; else the first two strings that
/// differ are a collision of the digest function.
pub fn audit<D: Digester>(
    alloc: Global,
    bundle: &Bundle,
    entry: u16,
    image: &Image,
) -> Result<Finding, AuditStop>
    requires { KeepsLimits bundle.now }
    ensures finding { IfOk result (Finds D.digest_of bundle.now entry (image_of image.now)) }
    ensures auditable { IfOk result
        (λ _. IsAuditable D.digest_of bundle.now entry (image_of image.now)) }
    ensures stop { IfErr result
        (StopsAudit D.digest_of bundle.now entry (image_of image.now)) }
{
    let found = first_disagreement::<D>(alloc, bundle, entry, image)?;
    match found {
        Some(first) => Ok(Finding::Collision(first.pair)),
        None => {
            let asked = &bundle.entries.as_slice()[usize::from(entry)];
            let words = words_of(alloc, asked.seals.as_slice())?;
            Ok(Finding::Sound { words })
        }
    }
}

/// The place of the first two strings that differ, which `audit` answers of the same bundle, entry and image. None
/// comes exactly where the entry agrees with the run.
pub fn audit_place<D: Digester>(
    alloc: Global,
    bundle: &Bundle,
    entry: u16,
    image: &Image,
) -> Result<Option<Place>, AuditStop>
    requires { KeepsLimits bundle.now }
    ensures place { IfOk result
        (λ place. place ≡ place_in D.digest_of bundle.now entry (image_of image.now)) }
    ensures strings { IfOk result
        (λ place. IfSome (audit_pair D.digest_of bundle.now entry (image_of image.now))
        (λ pair. IfSome place
        (λ place. StandAt D.digest_of bundle.now entry (image_of image.now) place pair))) }
    ensures sound { IfOk result
        (λ place. IsNone place ↔ Faithful D.digest_of bundle.now entry (image_of image.now)) }
    ensures auditable { IfOk result
        (λ _. IsAuditable D.digest_of bundle.now entry (image_of image.now)) }
    ensures stop { IfErr result
        (StopsAudit D.digest_of bundle.now entry (image_of image.now)) }
{
    let found = first_disagreement::<D>(alloc, bundle, entry, image)?;
    match found {
        Some(first) => Ok(Some(first.place)),
        None => Ok(None),
    }
}

// The first disagreement of an entry with the image's uncut run.
fn first_disagreement<D: Digester>(
    alloc: Global,
    bundle: &Bundle,
    entry: u16,
    image: &Image,
) -> Result<Option<Disagreement>, AuditStop>
    requires { KeepsLimits bundle.now }
    ensures pair { IfOk result
        (λ found. option_map (λ found. found.pair) found
        ≡ audit_pair D.digest_of bundle.now entry (image_of image.now)) }
    ensures place { IfOk result
        (λ found. option_map (λ found. found.place) found
        ≡ place_in D.digest_of bundle.now entry (image_of image.now)) }
    ensures auditable { IfOk result
        (λ _. IsAuditable D.digest_of bundle.now entry (image_of image.now)) }
    ensures image { IfOk result (λ _. IsImage (image_of image.now)) }
    ensures stop { IfErr result
        (StopsAudit D.digest_of bundle.now entry (image_of image.now)) }
{
    let judged = judge::<D>(alloc, bundle, &first_id::<D>(bundle))?;
    let claims = judged.claims.as_slice();
    let place = usize::from(entry);
    if place >= claims.len() {
        return Err(AuditStop::NoEntry {
            count: claims.len() as u32,
        });
    }
    let claim = &claims[place];
    let tree = PageTree::<D>::from_map(alloc, &image.map)?;
    let wanted = state_digest::<D>(&first_state(image, &tree));
    let found = state_digest::<D>(&claim.before);
    if wanted != found {
        return Err(AuditStop::OtherImage { wanted, found });
    }
    Ok(compare_entry(alloc, bundle, entry, claims, image, tree)?)
}

// The state in which an image's run begins. The tree is that of the image's memory.
fn first_state<D: Digester>(image: &Image, tree: &PageTree<D>) -> State
    requires tree { tree.now ≡ image.now.map }
    requires stored { IsStoredFrom 0 image.now.map }
    ensures { result ≡ image_state D.digest_of (image_of image.now) }
{
    State {
        pc: image.entry,
        root: tree.root(),
    }
}

// The first disagreement of an entry of an accepted bundle, whose entries have these claims. The tree is that of the
// image's memory.
fn compare_entry<D: Digester>(
    alloc: Global,
    bundle: &Bundle,
    entry: u16,
    claims: &[SpanClaim],
    image: &Image,
    tree: PageTree<D>,
) -> Result<Option<Disagreement>, AllocError>
    requires limits { KeepsLimits bundle.now }
    requires accepted { IsAccepted D.digest_of bundle.now }
    requires claims { AreClaims D.digest_of bundle.now claims.now }
    requires some { entry < length bundle.now }
    requires tree { tree ≡ image.now.map }
    requires stored { IsStoredFrom 0 image.now.map }
    ensures pair { IfOk result
        (λ found. option_map (λ found. found.pair) found
        ≡ audit_pair D.digest_of bundle.now entry (image_of image.now)) }
    ensures place { IfOk result
        (λ found. option_map (λ found. found.place) found
        ≡ place_in D.digest_of bundle.now entry (image_of image.now)) }
{
    let asked = &bundle.entries.as_slice()[usize::from(entry)];
    let claim = &claims[usize::from(entry)];
    let left = state_string::<D>(alloc, &claim.before)?;
    let right = state_string::<D>(alloc, &first_state(image, &tree))?;
    let found = compare(Place::State, left, right);
    if found.is_some() {
        return Ok(found);
    }
    let found = first_split_seal(alloc, asked.seals.as_slice(), image, tree)?;
    if found.is_some() {
        return Ok(found);
    }
    first_linked::<D>(
        alloc,
        claims,
        claim.calls.as_slice(),
        asked.links.as_slice(),
    )
}
