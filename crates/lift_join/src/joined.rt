ghost use Rattle.std.specs.Prelude.{◌≡◌, ◌%◌, ◌⊎◌, [], ◌∷◌, ◌++◌, Some, IfOk, IfErr, map};
ghost use Rattle.std.specs.Arc.{arc_value};
ghost use Rattle.claim_types.specs.declared.claim.Exit.TheVariants.{Split};
ghost use Rattle.part_tree.specs.declared.sizes.TheConstants.{HEIGHT};
ghost use Rattle.part_tree.specs.Part.{IsPart};
ghost use Rattle.seal_replay.specs.declared.stop.ReplayStop.TheVariants.{Memory};
ghost use Rattle.seal_replay.specs.Claiming.{claim_of};
ghost use Rattle.seal_replay.specs.Replay.{stop_of};
ghost use Rattle.lift_join.specs.Joins.{joint_claim, chain_of};

use crate::appending::append;
use claim_types::SpanClaim;
use digest_core::Digester;
use receipt_types::{Seal, SealList};
use seal_replay::{ReplayStop, replay};
use std::alloc::Global;
use std::marker::{Model, PhantomData};
use std::sync::Arc;

/// Seals of which each follows the one before it, and the claim of them all: the join, from left to right, of
/// what their replays claim. `lift` and `join` alone make one. Contracts see the seals and the claim.
#[derive(Drop)]
pub struct Joined<D: Digester> {
    seals: SealList,
    claim: SpanClaim,
    digester: PhantomData<D>,
}

impl<D: Digester> Model for Joined<D> {
    ghost use Rattle.std.specs.Prelude.{◌≡◌, Some, map};
    ghost use Rattle.std.specs.Arc.{arc_value};
    ghost use Rattle.lift_join.specs.Joins.{chain_of};
    ghost use Rattle.lift_join.specs.Chained.{Chained, chained_code};

    ghost Value = { Chained };

    ghost coded = { chained_code };

    ghost view = { λ j. record { seals = map (λ seal. arc_value seal) j.seals.items; claim = j.claim } };

    ghost invariant = { λ j. chain_of D.digest_of (map (λ seal. arc_value seal) j.seals.items) ≡ Some j.claim };
}

impl<D: Digester> Joined<D> {
    // Seals with the claim of their chain.
    fn of(seals: SealList, claim: SpanClaim) -> Joined<D>
        requires { chain_of D.digest_of (map (λ seal. arc_value seal) seals.items) ≡ Some claim }
        ensures seals { result.seals ≡ map (λ seal. arc_value seal) seals.items }
        ensures claim { result.claim ≡ claim }
    {
        Joined {
            seals,
            claim,
            digester: PhantomData,
        }
    }

    /// The claim. It takes no memory.
    pub fn claim(&self) -> &SpanClaim
        ensures value { result.now ≡ self.now.claim }
        ensures chain { chain_of D.digest_of self.now.seals ≡ Some self.now.claim }
    {
        &self.claim
    }

    /// The seals, first to last. It takes no memory.
    pub fn seals(&self) -> &SealList
        ensures value { map (λ seal. arc_value seal) result.now.items ≡ self.now.seals }
        ensures chain { chain_of D.digest_of self.now.seals ≡ Some self.now.claim }
    {
        &self.seals
    }
}

/// Replays a seal, whose pc is a multiple of 4 and whose tree has its shape. Ok and each stop but Memory come exactly
/// where the definition of the stops says so.
pub fn lift<D: Digester>(alloc: Global, seal: Arc<Seal, Global>) -> Result<Joined<D>, ReplayStop>
    requires aligned { (arc_value seal).pc % 4 ≡ 0 }
    requires shape { IsPart HEIGHT (arc_value seal).tree }
    ensures seals { IfOk result (λ lifted. lifted.seals ≡ arc_value seal ∷ []) }
    ensures claim { IfOk result
        (λ lifted. claim_of D.digest_of (arc_value seal) ≡ Some lifted.claim) }
    ensures stop { IfErr result (λ stop. (stop ≡ Memory) ⊎ (stop_of (arc_value seal) ≡ Some stop)) }
{
    let claim = replay::<D>(alloc, &seal)?;
    let mut seals = SealList::new(alloc);
    seals.push(seal)?;
    Ok(Joined::of(seals, claim))
}

/// Joins two of which the second follows the first: the first one's claim ends in Split, where the second one's begins.
/// Err is want of memory and hands both back.
pub fn join<D: Digester>(
    left: Joined<D>,
    right: Joined<D>,
) -> Result<Joined<D>, (Joined<D>, Joined<D>)>
    requires split { left.claim.exit ≡ Split }
    requires meets { left.claim.after ≡ right.claim.before }
    ensures seals { IfOk result (λ whole. whole.seals ≡ left.seals ++ right.seals) }
    ensures claim { IfOk result (λ whole. whole.claim ≡ joint_claim left.claim right.claim) }
    ensures handed_back { IfErr result (λ back. (back.0 ≡ left) × (back.1 ≡ right)) }
{
    let Joined {
        mut seals,
        mut claim,
        ..
    } = left;
    let Joined {
        seals: more,
        claim: next,
        ..
    } = right;
    if seals.reserve(more.len()).is_err() {
        return Err((Joined::of(seals, claim), Joined::of(more, next)));
    }
    match append(&mut claim, next) {
        Ok(()) => {
            seals.append_spare(more);
            Ok(Joined::of(seals, claim))
        }
        Err(next) => Err((Joined::of(seals, claim), Joined::of(more, next))),
    }
}
