ghost use Rattle.std.specs.Prelude.{◌≡◌, [], ◌∷◌, ◌++◌, Some, is_some, IsTrue, IfOk, IfErr, IfSome};
ghost use Rattle.elf_image.specs.Loaded.{image_of};
ghost use Rattle.rv_step.specs.Runs.{start};
ghost use Rattle.receipt_types.specs.Limits.{SealLimits};
ghost use Rattle.session.specs.Proved.{IsProved, StopsSession, IsHalt, StopsAt, seals_so_far, IsChained, MayFollow};
ghost use Rattle.session.specs.declared.stop.SessionStop.TheVariants.{Memory};

use crate::stop::SessionStop;
use byte_cursor::WordList;
use digest_core::Digester;
use elf_image::Image;
use executor::{Cut, Executor, Limits, Next};
use lift_join::{Joined, join, lift};
use rv_step::Outcome;
use seal_replay::ReplayStop;
use std::alloc::Global;
use std::sync::Arc;

/// Proves the run of an image and input words under limits, on the caller's thread: the seals of its segments, each of them
/// replayed, with the claim of them all. Each stop but Memory comes exactly where the uncut run and its segments say so.
pub fn prove_alone<D: Digester>(
    alloc: Global,
    image: Image,
    words: WordList,
    limits: Limits,
) -> Result<Joined<D>, SessionStop>
    ensures proved { IfOk result
        (λ joined. IsProved D.digest_of limits (start (image_of image) words.items) joined) }
    ensures stop { IfErr result
        (λ stop. StopsSession limits (start (image_of image) words.items) stop) }
{
    let mut executor = Executor::<D>::new(alloc, image, words, limits)?;
    let mut whole = None;
    loop {
        match executor.next()? {
            Next::Cut(cut) => whole = Some(with_cut(alloc, whole, &cut)?),
            Next::Ended(outcome) => return ended(whole, outcome),
            Next::TooManySeals => return Err(SessionStop::TooManySeals),
        }
    }
}

// What is proved of a run with this outcome, all seals of which are joined.
fn ended<D: Digester>(whole: Option<Joined<D>>, outcome: Outcome) -> Result<Joined<D>, SessionStop>
    requires { IsHalt outcome → IsTrue (is_some whole) }
    ensures ok { IfOk result (λ joined. IsHalt outcome × (whole ≡ Some joined)) }
    ensures stop { IfErr result (λ stop. StopsAt outcome stop) }
{
    match outcome {
        Outcome::Halted(_) => match whole {
            Some(joined) => Ok(joined),
            None => unreachable!(),
        },
        Outcome::Faulted { fault, pc, step } => Err(SessionStop::Faulted { fault, pc, step }),
        Outcome::OverLimit { step } => Err(SessionStop::OverLimit { step }),
    }
}

// The seals so far and that of a cut, which follows them, with the claim of them all.
fn with_cut<D: Digester>(
    alloc: Global,
    whole: Option<Joined<D>>,
    cut: &Cut<D>,
) -> Result<Joined<D>, SessionStop>
    requires { IfSome whole (λ left. MayFollow D.digest_of left cut.now.seal) }
    ensures seals { IfOk result (λ joined. joined.seals ≡ seals_so_far whole ++ cut.now.seal ∷ []) }
    ensures chained { IfOk result (λ joined. IsChained D.digest_of joined) }
    ensures limits { SealLimits cut.now.seal }
    ensures memory { IfErr result (λ stop. stop ≡ Memory) }
{
    let seal = match Arc::new(alloc, cut.open()?) {
        Ok(seal) => seal,
        Err(_) => return Err(SessionStop::Memory),
    };
    let next = match lift::<D>(alloc, seal) {
        Ok(next) => next,
        Err(ReplayStop::Memory) => return Err(SessionStop::Memory),
        Err(_) => unreachable!(),
    };
    let Some(left) = whole else {
        return Ok(next);
    };
    match join(left, next) {
        Ok(joined) => Ok(joined),
        Err(_) => Err(SessionStop::Memory),
    }
}
