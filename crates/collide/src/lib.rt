//! Where a part tree and a memory's tree with the same digest differ: the two strings of the first node that isn't the
//! memory's, which are a collision of the digest function, and the place of that node.
#![tactic(auto)]

mod place;
mod split;
mod strings;

ghost use Rattle.collide.specs.Places.{SplitsHavePlaces};

use digest_core::Digester;
pub use place::first_place;
pub use split::{Pair, first_split};

/// There is a first split exactly where there is a first place, and the split's right string is that of the memory's
/// node at that place: its page at height 0, and else the two digests below it.
pub fn place_laws<D: Digester>()
    ensures { SplitsHavePlaces D.digest_of }
{}
