//! What is hashed at a node.
ghost use Rattle.std.specs.Prelude.{◌≡◌, ◌-◌, ◌^◌, ◌<◌, ◌≤◌, ◌++◌};
ghost use Rattle.page_core.specs.Stored.{stored_pages};
ghost use Rattle.part_tree.specs.Tree.{node_string};
ghost use Rattle.part_tree.specs.declared.sizes.TheConstants.{HEIGHT};

use digest_core::{Digest, Digester};
use page_tree::PageTree;

// What is hashed at a node of the memory's tree over two others.
pub(crate) fn inner_string<D: Digester>(real: &PageTree<D>, height: u8, index: u32) -> [u8; 64]
    requires some { 1 ≤ height }
    requires low { height ≤ HEIGHT }
    requires fits { index < 2 ^ (HEIGHT - height) }
    ensures { result ≡ node_string D.digest_of (stored_pages real.now) height index }
{
    let left = real.node_at(height - 1, 2 * index);
    let right = real.node_at(height - 1, 2 * index + 1);
    joined(&left, &right)
}

// The bytes of a page, zeros where it isn't stored.
pub(crate) fn page_string<D: Digester>(real: &PageTree<D>, number: u32) -> &[u8; 1024]
    ensures { result.now ≡ stored_pages real.now number }
{
    match real.page(number) {
        Some(page) => page.bytes(),
        None => &[0; 1024],
    }
}

// The bytes of two digests.
pub(crate) fn joined(left: &Digest, right: &Digest) -> [u8; 64]
    ensures { result ≡ left.now ++ right.now }
{
    let mut string = [0; 64];
    string[..32].copy_from_slice(left.bytes());
    string[32..].copy_from_slice(right.bytes());
    string
}
