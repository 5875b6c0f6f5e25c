//! An image's uncut run, beside the seals of an entry.
ghost use Rattle.std.specs.Prelude.{◌≡◌, ◌≢◌, ◌≤◌, ◌<◌, ℕ, [], length, map, Some, IfOk, OnOk, IfNone, option_map};
ghost use Rattle.std.specs.Arc.{arc_value};
ghost use Rattle.page_core.specs.Memories.{page_of};
ghost use Rattle.page_core.specs.Stored.{IsStoredFrom, stored_pages};
ghost use Rattle.part_tree.specs.Canonical.{IsCanonical};
ghost use Rattle.part_tree.specs.Part.{Agree, root_of};
ghost use Rattle.part_tree.specs.Splits.{split_of};
ghost use Rattle.part_tree.specs.Tree.{root};
ghost use Rattle.part_tree.specs.Views.{part};
ghost use Rattle.part_tree.specs.declared.sizes.TheConstants.{HEIGHT};
ghost use Rattle.collide.specs.Places.{place_of};
ghost use Rattle.elf_image.specs.Loaded.{image_of};
ghost use Rattle.rv_step.specs.Runs.{start};
ghost use Rattle.claim_types.specs.States.{image_state};
ghost use Rattle.receipt_types.specs.Limits.{AllSealLimits};
ghost use Rattle.receipt_types.specs.Seals as plain;
ghost use Rattle.receipt_types.specs.declared.sizes.TheConstants.{MOST_SEALS};
ghost use Rattle.check_core.specs.Auditing.{seals_pair};
ghost use Rattle.check_core.specs.Entries.{first_of};
ghost use Rattle.check_core.specs.Judgement.{ChainHalts};
ghost use Rattle.audit.specs.Places.{seals_place};
ghost use Rattle.audit.specs.Walking.{IsAt, GoesThrough, HasGone};
ghost use Rattle.audit.specs.declared.disagreement.Place.TheVariants.{Tree};

use crate::disagreement::{Disagreement, Place};
use byte_cursor::WordList;
use collide::{first_place, first_split};
use digest_core::Digester;
use elf_image::Image;
use flat_machine::{Flat, following_tree};
use page_tree::PageTree;
use part_tree::PartTree;
use receipt_types::Seal;
use std::alloc::{AllocError, Global};
use std::marker::Brand;
use std::sync::Arc;
use std::sync::ledger::{Blank, Ledger};

// The words of seals, one after the other.
pub(crate) fn words_of(alloc: Global, seals: &[Arc<Seal, Global>]) -> Result<WordList, AllocError>
    ensures { IfOk result
        (λ words. words.items ≡ plain.words_of (map (λ seal. arc_value seal) seals.now)) }
{
    let mut words = WordList::new(alloc);
    for seal in seals {
        words.extend(seal.words.as_slice())?;
    }
    Ok(words)
}

// The first node of an entry's seals, in preorder, that isn't the one of the memory of the image's uncut run where the seal
// begins. The tree is that of the image's memory.
pub(crate) fn first_split_seal<D: Digester>(
    alloc: Global,
    seals: &[Arc<Seal, Global>],
    image: &Image,
    tree: PageTree<D>,
) -> Result<Option<Disagreement>, AllocError>
    requires few { length seals.now ≤ MOST_SEALS }
    requires limits { AllSealLimits (map (λ seal. arc_value seal) seals.now) }
    requires halts { ChainHalts D.digest_of (map (λ seal. arc_value seal) seals.now) }
    requires first { first_of D.digest_of (map (λ seal. arc_value seal) seals.now)
        ≡ Some (image_state D.digest_of (image_of image.now)) }
    requires tree { tree ≡ image.now.map }
    requires stored { IsStoredFrom 0 image.now.map }
    ensures pair { IfOk result
        (λ found. option_map (λ found. found.pair) found
        ≡ seals_pair D.digest_of
        (Some (start (image_of image.now)
        (plain.words_of (map (λ seal. arc_value seal) seals.now))))
        (map (λ seal. arc_value seal) seals.now)) }
    ensures place { IfOk result
        (λ found. option_map (λ found. found.place) found
        ≡ seals_place D.digest_of 0
        (Some (start (image_of image.now)
        (plain.words_of (map (λ seal. arc_value seal) seals.now))))
        (map (λ seal. arc_value seal) seals.now)) }
{
    let mut walk = Walk {
        flat: Flat::copying(alloc, image, words_of(alloc, seals)?)?,
        tree,
    };
    let mut number = 0u32;
    loop {
        let seal = &seals[number as usize];
        let found = compare_tree(alloc, number, &seal.tree, &walk.tree)?;
        if found.is_some() {
            return Ok(found);
        }
        number += 1;
        if number as usize == seals.len() {
            return Ok(None);
        }
        walk.go_through::<Brand>(alloc, seal, Blank::new(1))?;
    }
}

// The first node of the tree of a seal, in preorder, that isn't the memory's, if there is one.
fn compare_tree<D: Digester>(
    alloc: Global,
    number: u32,
    tree: &PartTree,
    real: &PageTree<D>,
) -> Result<Option<Disagreement>, AllocError>
    requires canonical { IsCanonical (part tree.now) }
    requires same_root { root_of D.digest_of (part tree.now)
        ≡ root D.digest_of (stored_pages real.now) }
    ensures pair { IfOk result
        (λ found. option_map (λ found. found.pair) found
        ≡ split_of D.digest_of (stored_pages real.now) HEIGHT 0 (part tree.now)) }
    ensures place { IfOk result
        (λ found. option_map (λ found. found.place) found
        ≡ option_map (λ node. Tree number node.0 node.1)
        (place_of D.digest_of (stored_pages real.now) HEIGHT 0 (part tree.now))) }
    ensures agrees { IfOk result
        (λ found. IfNone found
        (Agree D.digest_of (stored_pages real.now) HEIGHT 0 (part tree.now))) }
{
    let Some((height, index)) = first_place(tree, real) else {
        return Ok(None);
    };
    let Some(pair) = first_split(alloc, tree, real)? else {
        unreachable!();
    };
    let place = Place::Tree {
        seal: number,
        height,
        index,
    };
    Ok(Some(Disagreement { place, pair }))
}

// An uncut run, and the tree of its memory with the registers.
#[derive(Drop)]
struct Walk<D: Digester> {
    flat: Flat,
    tree: PageTree<D>,
}

impl<D: Digester> Walk<D> {
    // Does the steps of a seal. The tree shares with the one before what they leave as it was.
    fn go_through<L: Ledger>(
        &mut self,
        alloc: Global,
        seal: &Seal,
        blank: Blank,
    ) -> Result<(), AllocError>
        requires goes { GoesThrough self.old.flat self.old.tree seal.now }
        requires canonical { IsCanonical seal.now.tree }
        requires name { blank.name ≡ L.name }
        requires parts { blank.parts ≡ L.parts }
        requires shared { 0 < L.parts }
        ensures { OnOk result (HasGone self.old.flat self.new.flat self.new.tree seal.now) }
    {
        self.flat.go(u64::from(seal.steps))?;
        let touched = seal.tree.opened(alloc)?;
        self.tree = following_tree::<D, L>(
            alloc,
            &self.tree,
            &self.flat,
            touched.as_slice(),
            blank,
        )?;
        Ok(())
    }
}
