ghost use Rattle.std.specs.Prelude.{◌≡◌, option_map};
ghost use Rattle.part_tree.specs.Splits.{differ};
ghost use Rattle.audit.specs.Places.{place_if};

use byte_cursor::ByteList;
use collide::Pair;

/// Where a receipt's entry and an image's uncut run differ. Seals and calls are numbered from 0.
#[derive(Clone, Copy, Debug, PartialEq, Eq)]
pub enum Place {
    /// The strings of the entry's first state and of the image.
    State,
    /// The strings of node `index` of height `height`, 0 to 18, of this seal's tree and of the run's memory.
    Tree { seal: u32, height: u8, index: u32 },
    /// The claim strings of the entry that this call is linked to and of what the call asks for.
    Claim { call: u32 },
    /// The output strings of the entry that this call is linked to and of what the call asks for.
    Output { call: u32 },
}

// A place and the two strings that stand there, which differ.
#[derive(Drop)]
pub(crate) struct Disagreement {
    pub(crate) place: Place,
    pub(crate) pair: Pair,
}

// The two strings that stand at a place, if they differ.
pub(crate) fn compare(place: Place, left: ByteList, right: ByteList) -> Option<Disagreement>
    ensures pair { option_map (λ found. found.pair) result ≡ differ left.items right.items }
    ensures place { option_map (λ found. found.place) result
        ≡ place_if place (differ left.items right.items) }
{
    if left.as_slice() == right.as_slice() {
        return None;
    }
    Some(Disagreement {
        place,
        pair: Pair { left, right },
    })
}
