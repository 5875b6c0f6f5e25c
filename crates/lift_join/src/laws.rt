ghost use Rattle.lift_join.specs.Laws.{ChainsJoin};

use digest_core::Digester;

/// The chain of two lists of seals is the join of their chains, so claims may be joined in any order.
pub fn chains_join<D: Digester>()
    ensures { ChainsJoin D.digest_of }
{}
