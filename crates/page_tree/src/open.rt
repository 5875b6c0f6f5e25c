ghost use Rattle.std.specs.Prelude.{◌≡◌, ◌-◌, ◌+◌, ◌*◌, ◌^◌, ◌<◌, ◌≤◌, ◌++◌, All, IfOk};
ghost use Rattle.page_core.specs.Stored.{stored_pages};
ghost use Rattle.part_tree.specs.Tree.{IsBelow};
ghost use Rattle.part_tree.specs.Part.{branch, leaf, part_of};
ghost use Rattle.part_tree.specs.Views.{part};
ghost use Rattle.page_tree.specs.Grown.{AscendFrom};
ghost use Rattle.part_tree.specs.declared.sizes.TheConstants.{HEIGHT};

use crate::tree::PageTree;
use digest_core::Digester;
use page_core::Page;
use part_tree::PartTree;
use std::alloc::{AllocError, Global};

// The part tree of a node that opens these pages, all of them at or below it.
pub(crate) fn open_below<D: Digester>(
    alloc: Global,
    tree: &PageTree<D>,
    height: u32,
    index: u32,
    pages: &[u32],
) -> Result<PartTree, AllocError>
    requires low { height ≤ HEIGHT }
    requires fits { index < 2 ^ (HEIGHT - height) }
    requires below { All (IsBelow height index) pages.now }
    requires ascending { AscendFrom 0 pages.now }
    ensures { IfOk result (λ part_tree. part part_tree
        ≡ part_of D.digest_of (stored_pages tree.now) pages.now height index) }
{
    if pages.is_empty() {
        return Ok(PartTree::Pruned(tree.node_at(height as u8, index)));
    }
    if height == 0 {
        return leaf(alloc, bytes_of(tree, index));
    }
    let (left_pages, right_pages) = sides_of(pages, height, index);
    let left = open_below(alloc, tree, height - 1, 2 * index, left_pages)?;
    let right = open_below(alloc, tree, height - 1, 2 * index + 1, right_pages)?;
    branch(alloc, left, right)
}

// The bytes of a page, zeros where it isn't stored.
fn bytes_of<D: Digester>(tree: &PageTree<D>, page: u32) -> &[u8; 1024]
    ensures { result.now ≡ stored_pages tree.now page }
{
    match tree.page(page) {
        Some(page) => page.bytes(),
        None => &[0; 1024],
    }
}

// An open page of these bytes.
fn leaf(alloc: Global, bytes: &[u8; 1024]) -> Result<PartTree, AllocError>
    ensures { IfOk result (λ tree. part tree ≡ leaf bytes.now) }
{
    Ok(PartTree::Leaf(Box::new(alloc, Page::of(bytes))?))
}

// A branch over two trees.
fn branch(alloc: Global, left: PartTree, right: PartTree) -> Result<PartTree, AllocError>
    ensures { IfOk result (λ tree. part tree ≡ branch (part left) (part right)) }
{
    let left = Box::new(alloc, left)?;
    let right = Box::new(alloc, right)?;
    Ok(PartTree::Branch(left, right))
}

// The pages below each side of a node, of pages that are all below it and ascend.
fn sides_of(pages: &[u32], height: u32, index: u32) -> (&[u32], &[u32])
    requires some { 1 ≤ height }
    requires low { height ≤ HEIGHT }
    requires fits { index < 2 ^ (HEIGHT - height) }
    requires below { All (IsBelow height index) pages.now }
    requires ascending { AscendFrom 0 pages.now }
    ensures all { pages.now ≡ result.0.now ++ result.1.now }
    ensures left { All (IsBelow (height - 1) (2 * index)) result.0.now }
    ensures right { All (IsBelow (height - 1) (2 * index + 1)) result.1.now }
    ensures left_ascending { AscendFrom 0 result.0.now }
    ensures right_ascending { AscendFrom 0 result.1.now }
{
    let middle = (2 * index + 1) << (height - 1);
    pages.split_at(pages.partition_point(|page| *page < middle))
}
