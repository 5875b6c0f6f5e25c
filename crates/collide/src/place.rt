//! The place of the first split.
ghost use Rattle.std.specs.Prelude.{◌≡◌, ◌-◌, ◌^◌, ◌<◌, ◌≤◌, ◌↔◌, IfSome, IsNone, option_map};
ghost use Rattle.page_core.specs.Stored.{stored_pages};
ghost use Rattle.part_tree.specs.Tree.{root};
ghost use Rattle.part_tree.specs.Part.{IsPart, Agree, root_of};
ghost use Rattle.part_tree.specs.Canonical.{IsCanonical};
ghost use Rattle.part_tree.specs.Splits.{differ};
ghost use Rattle.part_tree.specs.Views.{part};
ghost use Rattle.collide.specs.Places.{place_of};
ghost use Rattle.part_tree.specs.declared.sizes.TheConstants.{HEIGHT};

use crate::strings::{inner_string, joined, page_string};
use digest_core::{Digest, Digester, hash};
use page_tree::PageTree;
use part_tree::{HEIGHT, PartTree};

/// The height, 0 to 18, and the number of the node whose strings `first_split` answers of the same trees. None comes
/// exactly where each opened page and pruned digest is the memory's. It takes no memory.
pub fn first_place<D: Digester>(tree: &PartTree, real: &PageTree<D>) -> Option<(u8, u32)>
    requires canonical { IsCanonical (part tree.now) }
    requires same_root { root_of D.digest_of (part tree.now)
        ≡ root D.digest_of (stored_pages real.now) }
    ensures place { result
        ≡ place_of D.digest_of (stored_pages real.now) HEIGHT 0 (part tree.now) }
    ensures low { IfSome result (λ place. place.0 ≤ HEIGHT) }
    ensures fits { IfSome result (λ place. place.1 < 2 ^ (HEIGHT - place.0)) }
    ensures agrees { IsNone result
        ↔ Agree D.digest_of (stored_pages real.now) HEIGHT 0 (part tree.now) }
{
    let (_, place) = place_below(tree, real, HEIGHT as u8, 0);
    place
}

// The digest of this node, and the place of the first split at or below it.
fn place_below<D: Digester>(
    tree: &PartTree,
    real: &PageTree<D>,
    height: u8,
    index: u32,
) -> (Digest, Option<(u8, u32)>)
    requires shape { IsPart height (part tree.now) }
    requires low { height ≤ HEIGHT }
    requires fits { index < 2 ^ (HEIGHT - height) }
    ensures digest { result.0 ≡ root_of D.digest_of (part tree.now) }
    ensures place { result.1
        ≡ place_of D.digest_of (stored_pages real.now) height index (part tree.now) }
    ensures low { IfSome result.1 (λ place. place.0 ≤ HEIGHT) }
    ensures fits { IfSome result.1 (λ place. place.1 < 2 ^ (HEIGHT - place.0)) }
{
    match tree {
        PartTree::Pruned(digest) => (*digest, None),
        PartTree::Branch(left, right) => {
            let below = height - 1;
            let (left_digest, first) = place_below(left, real, below, 2 * index);
            let (right_digest, second) = place_below(right, real, below, 2 * index + 1);
            let string = joined(&left_digest, &right_digest);
            let here = place_if_differ(&string, &inner_string(real, height, index), height, index);
            (hash::<D>(&string), here.or(first.or(second)))
        }
        PartTree::Leaf(page) => {
            let here = place_if_differ(page.bytes(), page_string(real, index), height, index);
            (hash::<D>(page.bytes()), here)
        }
    }
}

// This place, if the two strings differ.
fn place_if_differ(left: &[u8], right: &[u8], height: u8, index: u32) -> Option<(u8, u32)>
    ensures { result ≡ option_map (λ pair. (height, index)) (differ left.now right.now) }
{
    if left == right {
        None
    } else {
        Some((height, index))
    }
}
