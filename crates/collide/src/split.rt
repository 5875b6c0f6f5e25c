//! The two strings of the first split.
ghost use Rattle.std.specs.Prelude.{◌≡◌, ◌-◌, ◌^◌, ◌<◌, ◌≤◌, ◌↔◌, IfOk, IfSome, IsNone};
ghost use Rattle.digest_core.specs.Digests.{IsBytes};
ghost use Rattle.page_core.specs.Stored.{stored_pages};
ghost use Rattle.part_tree.specs.Tree.{root};
ghost use Rattle.part_tree.specs.Part.{IsPart, Agree, root_of};
ghost use Rattle.part_tree.specs.Canonical.{IsCanonical};
ghost use Rattle.part_tree.specs.Splits.{differ, split_of};
ghost use Rattle.part_tree.specs.Views.{part};
ghost use Rattle.part_tree.specs.declared.sizes.TheConstants.{HEIGHT};
ghost use Rattle.collide.specs.Splits.{IsCollidingPair};

use crate::strings::{inner_string, joined, page_string};
use byte_cursor::ByteList;
use digest_core::{Digest, Digester, hash};
use page_tree::PageTree;
use part_tree::{HEIGHT, PartTree};
use std::alloc::{AllocError, Global};
use std::marker::Model;

/// A string of a part tree and one of a memory's tree: what is hashed at a node, a page of 1,024 bytes or the two
/// digests below it. Contracts see the lists of their bytes.
#[derive(Drop)]
pub struct Pair {
    pub left: ByteList,
    pub right: ByteList,
}

impl Model for Pair {
    ghost use Rattle.part_tree.specs.Splits as plain;
    ghost use Rattle.collide.specs.Codes.{pair_code};

    ghost Value = { plain.Pair };

    ghost coded = { pair_code };

    ghost view = { λ p. record { left = p.left.items; right = p.right.items } };
}

/// The strings of the first node, in preorder, at which a canonical part tree and a memory's tree with the same digest
/// differ: a collision of the digest function. None comes exactly where each opened page and pruned digest is the
/// memory's. An AllocError is want of memory.
pub fn first_split<D: Digester>(
    alloc: Global,
    tree: &PartTree,
    real: &PageTree<D>,
) -> Result<Option<Pair>, AllocError>
    requires canonical { IsCanonical (part tree.now) }
    requires same_root { root_of D.digest_of (part tree.now)
        ≡ root D.digest_of (stored_pages real.now) }
    ensures split { IfOk result (λ pair. pair
        ≡ split_of D.digest_of (stored_pages real.now) HEIGHT 0 (part tree.now)) }
    ensures agrees { IfOk result (λ pair. IsNone pair
        ↔ Agree D.digest_of (stored_pages real.now) HEIGHT 0 (part tree.now)) }
    ensures collide { IfOk result (λ pair. IfSome pair
        (IsCollidingPair D.digest_of (part tree.now) (stored_pages real.now))) }
{
    let (_, split) = split_below(alloc, tree, real, HEIGHT as u8, 0)?;
    Ok(split)
}

// The digest of this node, and the strings of the first split at or below it.
fn split_below<D: Digester>(
    alloc: Global,
    tree: &PartTree,
    real: &PageTree<D>,
    height: u8,
    index: u32,
) -> Result<(Digest, Option<Pair>), AllocError>
    requires shape { IsPart height (part tree.now) }
    requires low { height ≤ HEIGHT }
    requires fits { index < 2 ^ (HEIGHT - height) }
    ensures digest { IfOk result (λ found. found.0 ≡ root_of D.digest_of (part tree.now)) }
    ensures split { IfOk result (λ found. found.1
        ≡ split_of D.digest_of (stored_pages real.now) height index (part tree.now)) }
    ensures left { IfOk result (λ found. IfSome found.1 (λ pair. IsBytes pair.left)) }
    ensures right { IfOk result (λ found. IfSome found.1 (λ pair. IsBytes pair.right)) }
{
    match tree {
        PartTree::Pruned(digest) => Ok((*digest, None)),
        PartTree::Branch(left, right) => {
            let below = height - 1;
            let (left_digest, first) = split_below(alloc, left, real, below, 2 * index)?;
            let (right_digest, second) = split_below(alloc, right, real, below, 2 * index + 1)?;
            let string = joined(&left_digest, &right_digest);
            let here = differing(alloc, &string, &inner_string(real, height, index))?;
            Ok((hash::<D>(&string), here.or(first.or(second))))
        }
        PartTree::Leaf(page) => {
            let here = differing(alloc, page.bytes(), page_string(real, index))?;
            Ok((hash::<D>(page.bytes()), here))
        }
    }
}

// The two strings, if they differ.
fn differing(alloc: Global, left: &[u8], right: &[u8]) -> Result<Option<Pair>, AllocError>
    ensures differ { IfOk result (λ pair. pair ≡ differ left.now right.now) }
    ensures left { IfOk result (λ pair. IfSome pair (λ pair. IsBytes pair.left)) }
    ensures right { IfOk result (λ pair. IfSome pair (λ pair. IsBytes pair.right)) }
{
    if left == right {
        return Ok(None);
    }
    let left = list_of(alloc, left)?;
    let right = list_of(alloc, right)?;
    Ok(Some(Pair { left, right }))
}

// A list of these bytes.
fn list_of(alloc: Global, bytes: &[u8]) -> Result<ByteList, AllocError>
    ensures { IfOk result (λ list. list.items ≡ bytes.now) }
{
    let mut list = ByteList::new(alloc);
    list.extend(bytes)?;
    Ok(list)
}
