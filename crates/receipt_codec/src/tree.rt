//! Reading a part tree.
ghost use Rattle.std.specs.Prelude.{◌≡◌, ◌≢◌, ◌<◌, ◌++◌, ℕ, length, Err, IfOk, IfSome, IfNone, OnErr};
ghost use Rattle.digest_core.specs.Digests.{IsDigest};
ghost use Rattle.page_core.specs.Pages.{IsPage};
ghost use Rattle.part_tree.specs.Part as plain;
ghost use Rattle.part_tree.specs.Part.{IsPart};
ghost use Rattle.part_tree.specs.Canonical.{IsCanonical};
ghost use Rattle.part_tree.specs.Views.{part};
ghost use Rattle.receipt_types.specs.Spelling.{tree_bytes};
ghost use Rattle.receipt_codec.specs.Reading.{NoneSpelled};

use crate::stop::ReadStop;
use byte_cursor::Cursor;
use digest_core::Digest;
use page_core::Page;
use part_tree::{HEIGHT, PartTree};
use std::alloc::{AllocError, Global};

/// Reads a tree: the one that a prefix of the bytes left spells; the cursor then stands directly
/// after it. The tree is canonical: of height 18, with at most 4,096 pages of 1,024 bytes open.
///
/// Malformed comes exactly where no prefix spells a canonical tree, unless memory is wanting; Version never comes.
/// After an error the cursor stands where it stood.
pub fn read_tree(alloc: Global, cursor: &mut Cursor) -> Result<PartTree, ReadStop>
    ensures tree { IfOk result (λ tree. IsCanonical (part tree)) }
    ensures spelled { IfOk result (λ tree. cursor.old ≡ tree_bytes (part tree) ++ cursor.new) }
    ensures malformed { result ≡ Err ReadStop.Malformed →
        NoneSpelled tree_bytes IsCanonical cursor.old }
    ensures no_version { (v : ℕ) → result ≢ Err (ReadStop.Version v) }
    ensures kept { OnErr result (cursor.new ≡ cursor.old) }
{
    let mut ahead = Cursor::new(bytes_left(cursor));
    let tree = read_node(alloc, &mut ahead, HEIGHT)?;
    if !tree.is_canonical() {
        return Err(ReadStop::Malformed);
    }
    *cursor = ahead;
    Ok(tree)
}

// All the bytes that the cursor has left, without taking them.
pub(crate) fn bytes_left<'a>(cursor: &mut Cursor<'a>) -> &'a [u8]
    ensures bytes { result.now ≡ cursor.old }
    ensures kept { cursor.new ≡ cursor.old }
{
    let left = cursor.left();
    let Some(bytes) = cursor.take(left) else {
        unreachable!();
    };
    *cursor = Cursor::new(bytes);
    bytes
}

// Reads a node of this height with what is below it. After an error the cursor stands anywhere.
fn read_node(alloc: Global, cursor: &mut Cursor, height: u32) -> Result<PartTree, ReadStop>
    ensures shape { IfOk result (λ tree. IsPart height (part tree)) }
    ensures spelled { IfOk result (λ tree. cursor.old ≡ tree_bytes (part tree) ++ cursor.new) }
    ensures malformed { result ≡ Err ReadStop.Malformed →
        NoneSpelled tree_bytes (IsPart height) cursor.old }
    ensures no_version { (v : ℕ) → result ≢ Err (ReadStop.Version v) }
{
    match cursor.take_u8() {
        Some(0) => {
            let digest = read_digest(cursor).ok_or(ReadStop::Malformed)?;
            Ok(PartTree::Pruned(digest))
        }
        Some(1) if height > 0 => {
            let left = read_node(alloc, cursor, height - 1)?;
            let right = read_node(alloc, cursor, height - 1)?;
            Ok(branch(alloc, left, right)?)
        }
        Some(2) if height == 0 => {
            let page = read_page(cursor).ok_or(ReadStop::Malformed)?;
            Ok(PartTree::Leaf(Box::new(alloc, page)?))
        }
        _ => Err(ReadStop::Malformed),
    }
}

// The node with these two sides.
fn branch(alloc: Global, left: PartTree, right: PartTree) -> Result<PartTree, AllocError>
    ensures { IfOk result (λ tree. part tree ≡ plain.branch (part left) (part right)) }
{
    Ok(PartTree::Branch(Box::new(alloc, left)?, Box::new(alloc, right)?))
}

// Reads the 32 bytes of a digest.
fn read_digest(cursor: &mut Cursor) -> Option<Digest>
    ensures digest { IfSome result (λ digest. IsDigest digest) }
    ensures spelled { IfSome result (λ digest. cursor.old ≡ digest ++ cursor.new) }
    ensures short { IfNone result (length cursor.old < 32) }
{
    let digest = Digest::of(cursor.take(32)?);
    let _bytes = digest.bytes();
    Some(digest)
}

// Reads the 1,024 bytes of a page.
fn read_page(cursor: &mut Cursor) -> Option<Page>
    ensures page { IfSome result (λ page. IsPage page) }
    ensures spelled { IfSome result (λ page. cursor.old ≡ page ++ cursor.new) }
    ensures short { IfNone result (length cursor.old < 1024) }
{
    let page = Page::of(cursor.take(1024)?);
    let _bytes = page.bytes();
    Some(page)
}
