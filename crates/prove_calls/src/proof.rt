//! The proof of a run: its receipt and the receipt's report.
ghost use Rattle.std.specs.Prelude.{◌≡◌, ◌≢◌, ℕ, ◌<◌, ◌≤◌, length, IfOk, IfErr, Err};
ghost use Rattle.claim_types.specs.declared.claim.Exit.TheVariants.{Halted as HaltedWith};
ghost use Rattle.receipt_types.specs.Limits.{AllSealLimits};
ghost use Rattle.elf_image.specs.Loaded.{image_of};
ghost use Rattle.resolve.specs.Resolving.{bundles_of};
ghost use Rattle.command_frame.specs.Ends.{HasCause, IsEnded};
ghost use Rattle.prove_calls.specs.Prove.{StopsRun, IsUnresolved};
ghost use Rattle.prove_calls.specs.Proofs.{run_of, IsProofOf, IsBundled, TellsSession, TellsUnresolved};
ghost use Rattle.receipt_types.specs.declared.sizes.TheConstants.{MOST_LINKS, MOST_SEALS};

use byte_cursor::{ByteList, WordList};
use check_core::{Checked, Report};
use cli_text::{
    Status, faulted_text, no_receipt_text, over_limit_text, too_many_entries_text,
    too_many_seals_text,
};
use command_frame::{Answer, End, ended};
use digest_core::Digester;
use elf_image::Image;
use executor::Limits;
use lift_join::Joined;
use receipt_codec::write_bundle;
use resolve::{ResolveStop, resolve, resolved_report};
use session::{SessionStop, prove_alone};
use std::alloc::Global;

// A run that is proved: its receipt's bytes, and its report.
#[derive(Drop)]
pub(crate) struct Proof {
    pub receipt: ByteList,
    pub report: Report,
}

// The proof of the run of an image and input words under limits, whose calls the other receipts answer.
pub(crate) fn prove_run<D: Digester>(
    alloc: Global,
    image: Image,
    words: WordList,
    limits: Limits,
    others: &[Checked<D>],
) -> Result<Proof, End>
    ensures proof { IfOk result (IsProofOf D.digest_of
        (run_of (image_of image) words.items limits (bundles_of others.now))) }
    ensures stops { IfErr result (HasCause (StopsRun D.digest_of
        (run_of (image_of image) words.items limits (bundles_of others.now)))) }
    ensures no_fault { result ≢ Err End.ReadFault }
{
    // The limit is in its range, so a run that halts makes few assumption calls.
    let _ = limits.limit();
    match prove_alone::<D>(alloc, image, words, limits) {
        Ok(joined) => prove_joined(alloc, &joined, others),
        Err(stop) => Err(ended(stopped(alloc, stop))),
    }
}

// The proof of a run whose segments are proved, put together with the other receipts.
fn prove_joined<D: Digester>(
    alloc: Global,
    joined: &Joined<D>,
    others: &[Checked<D>],
) -> Result<Proof, End>
    requires halted { (code : ℕ) × (joined.now.claim.exit ≡ HaltedWith code) }
    requires some { 0 < length joined.now.seals }
    requires few { length joined.now.seals ≤ MOST_SEALS }
    requires limits { AllSealLimits joined.now.seals }
    requires calls { length joined.now.claim.calls ≤ MOST_LINKS }
    ensures bundled { IfOk result (IsBundled D.digest_of joined.now (bundles_of others.now)) }
    ensures unresolved { IfErr result (HasCause
        (IsUnresolved D.digest_of joined.now.claim.calls (bundles_of others.now))) }
    ensures no_fault { result ≢ Err End.ReadFault }
{
    let bundle = match resolve(alloc, joined, others) {
        Ok(bundle) => bundle,
        Err(stop) => return Err(ended(unresolved(alloc, stop))),
    };
    let receipt = write_bundle(alloc, &bundle)?;
    let report = resolved_report(alloc, &bundle, joined, others)?;
    Ok(Proof { receipt, report })
}

// The answer to a run whose calls the others don't answer.
fn unresolved(alloc: Global, stop: ResolveStop) -> Result<Answer, End>
    ensures tells { IsEnded (TellsUnresolved stop) result }
    ensures no_fault { result ≢ Err End.ReadFault }
{
    match stop {
        ResolveStop::NoReceiptFor { call } => {
            let lines = no_receipt_text(alloc, call)?;
            Ok(Answer::new(Status::Refused, lines))
        }
        ResolveStop::TooManyEntries { count } => {
            let lines = too_many_entries_text(alloc, count)?;
            Ok(Answer::new(Status::Refused, lines))
        }
        ResolveStop::Memory => Err(End::Memory),
    }
}

// The answer to a session that stops.
fn stopped(alloc: Global, stop: SessionStop) -> Result<Answer, End>
    ensures tells { IsEnded (TellsSession stop) result }
    ensures no_fault { result ≢ Err End.ReadFault }
{
    match stop {
        SessionStop::TooManySeals => {
            let lines = too_many_seals_text(alloc)?;
            Ok(Answer::new(Status::Refused, lines))
        }
        SessionStop::Faulted { fault, pc, step } => {
            let lines = faulted_text(alloc, step, pc, &fault)?;
            Ok(Answer::new(Status::Refused, lines))
        }
        SessionStop::OverLimit { step } => {
            let lines = over_limit_text(alloc, step)?;
            Ok(Answer::new(Status::Refused, lines))
        }
        SessionStop::Memory => Err(End::Memory),
    }
}
