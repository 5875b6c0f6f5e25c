//! The places at which a receipt and a run, or a part tree and a memory, differ first.
ghost use Rattle.std.specs.Prelude.{◌≡◌};
ghost use Rattle.page_core.specs.Stored.{stored_pages};
ghost use Rattle.part_tree.specs.Canonical.{IsCanonical};
ghost use Rattle.part_tree.specs.Part.{root_of};
ghost use Rattle.part_tree.specs.Tree.{root};
ghost use Rattle.part_tree.specs.Views.{part};
ghost use Rattle.receipt_types.specs.Limits.{KeepsLimits};

use crate::lines::{Hex, Lines};
use crate::shelf::Shelf;
use crate::stop::RowStop;
use audit::{AuditStop, audit_place};
use byte_cursor::Cursor;
use collide::{first_place, first_split};
use digest_core::Digester;
use elf_image::{Image, load};
use page_tree::PageTree;
use part_tree::PartTree;
use receipt_codec::{read_bundle, read_tree};
use receipt_types::Bundle;
use std::alloc::Global;

/// Adds where an audit of `RECEIPT ENTRY ELF` finds the first strings that differ.
pub(crate) fn add_place<D: Digester>(
    alloc: Global,
    shelf: &Shelf,
    out: &mut Lines,
    words: &[&str],
) -> Result<(), RowStop> {
    let [receipt, entry, elf] = words else {
        return Err(RowStop::NoRow);
    };
    let Ok(bundle) = read_bundle(alloc, shelf.bytes(receipt)?) else {
        return Err(RowStop::NoRow);
    };
    let Ok(image) = load(alloc, shelf.bytes(elf)?) else {
        return Err(RowStop::NoRow);
    };
    let Ok(entry) = u16::from_str_radix(entry, 10) else {
        return Err(RowStop::NoRow);
    };
    add_audit::<D>(alloc, out, &bundle, entry, &image)
}

fn add_audit<D: Digester>(
    alloc: Global,
    out: &mut Lines,
    bundle: &Bundle,
    entry: u16,
    image: &Image,
) -> Result<(), RowStop>
    requires { KeepsLimits bundle.now }
{
    match audit_place::<D>(alloc, bundle, entry, image) {
        Ok(Some(place)) => out.add(format_args!("{place:?}")),
        Ok(None) => out.add("sound"),
        Err(AuditStop::Memory) => Err(RowStop::Memory),
        Err(_) => out.add("refused"),
    }
}

/// The place and the strings of the first split of the tree in the file of this name from a memory's tree with its digest.
pub(crate) fn split_text<D: Digester>(
    alloc: Global,
    shelf: &Shelf,
    real: &PageTree<D>,
    name: &str,
) -> Result<String, RowStop> {
    let Ok(tree) = read_tree(alloc, &mut Cursor::new(shelf.bytes(name)?)) else {
        return Err(RowStop::NoRow);
    };
    if tree.root::<D>() != real.root() {
        return Err(RowStop::NoRow);
    }
    first_split_text::<D>(alloc, &tree, real)
}

fn first_split_text<D: Digester>(
    alloc: Global,
    tree: &PartTree,
    real: &PageTree<D>,
) -> Result<String, RowStop>
    requires canonical { IsCanonical (part tree.now) }
    requires same_root { root_of D.digest_of (part tree.now)
        ≡ root D.digest_of (stored_pages real.now) }
{
    let pair = first_split(alloc, tree, real)?;
    match (first_place(tree, real), pair) {
        (Some((height, index)), Some(pair)) => {
            let (left, right) = (Hex(pair.left.as_slice()), Hex(pair.right.as_slice()));
            Ok(format!(in alloc; "{height},{index} {left} {right}")?)
        }
        (None, None) => Ok(String::from_str(alloc, "none")?),
        _ => Err(RowStop::NoRow),
    }
}
