ghost use Rattle.part_tree.specs.Laws.{AgreeUnsplit, SplitExhibits, PutKeepsAgreement, PutHasNewStrings, OpenedAreOpen, PutChangesPages, PutTwice, PutSame, PutFills, PartAgrees, PartOpens, PartIsCanonical, AgreeTells, StringsAreBytes};

use digest_core::Digester;

/// A tree with a memory's digest agrees with that memory, or the strings of its first split collide.
pub fn split_laws<D: Digester>()
    ensures unsplit { AgreeUnsplit D.digest_of }
    ensures exhibits { SplitExhibits D.digest_of }
{}

/// A tree that agrees with a memory also agrees after a change of its open pages.
pub fn put_keeps_agreement<D: Digester>()
    ensures agreement { PutKeepsAgreement D.digest_of }
    ensures strings { PutHasNewStrings D.digest_of }
{}

/// What a put changes, and what it leaves.
pub fn put_laws()
    ensures opened { OpenedAreOpen }
    ensures pages { PutChangesPages }
    ensures twice { PutTwice }
    ensures same { PutSame }
    ensures fills { PutFills }
{}

/// A memory's part tree agrees with it, opens the pages that are asked for and has its canonical form, a tree that
/// agrees has its root, and all that is hashed are bytes.
pub fn part_laws<D: Digester>()
    ensures agrees { PartAgrees D.digest_of }
    ensures opens { PartOpens D.digest_of }
    ensures canonical { PartIsCanonical D.digest_of }
    ensures tells { AgreeTells D.digest_of }
    ensures bytes { StringsAreBytes D.digest_of }
{}
