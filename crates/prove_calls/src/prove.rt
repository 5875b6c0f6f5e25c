//! `prove ELF INPUT RECEIPT`, alone or with limits and other receipts.
ghost use Rattle.std.specs.Prelude.{◌≡◌, ◌≢◌, Err};
ghost use Rattle.outside.specs.Faults.{Rose};
ghost use Rattle.command_frame.specs.Ends.{IsEnded};
ghost use Rattle.prove_calls.specs.Prove.{AnswersProve};
ghost use Rattle.prove_calls.specs.Proofs.{TellsProof};

use crate::guest::read_guest;
use crate::others::read_others;
use crate::proof::{Proof, prove_run};
use cli_text::{Name, Status, proved_text, too_long_text};
use command_frame::{Answer, End, MOST_RECEIPT_BYTES, NewFile};
use digest_core::Digester;
use executor::Limits;
use outside::Desk;
use std::alloc::Global;

// The answer with the receipt of the run of the guest in two files, under limits, whose calls the other receipts answer.
pub(crate) fn prove<D: Digester, K: Desk>(
    alloc: Global,
    desk: &mut K,
    elf: &Name,
    input: &Name,
    receipt: Name,
    limits: Limits,
    others: &[Name],
) -> Result<Answer, End>
    ensures answer { IsEnded (AnswersProve D.digest_of
        (record {
          elf = elf.now;
          input = input.now;
          receipt = receipt;
          limits = limits;
          others = others.now;
        })
        (K.contents desk.old)) result }
    ensures fault { result ≡ Err End.ReadFault →
        Rose (K.read_faults desk.old) (K.read_faults desk.new) }
    ensures contents { K.contents desk.new ≡ K.contents desk.old }
    ensures write_faults { K.write_faults desk.new ≡ K.write_faults desk.old }
{
    let guest = read_guest(alloc, desk, elf.as_str(), input.as_str())?;
    let others = read_others::<D, K>(alloc, desk, others)?;
    let proof = prove_run::<D>(alloc, guest.image, guest.words, limits, others.as_slice())?;
    write_proof(alloc, receipt, proof)
}

// The answer to a proof: its receipt under a name, where that isn't too long.
fn write_proof(alloc: Global, receipt: Name, proof: Proof) -> Result<Answer, End>
    ensures tells { IsEnded (TellsProof receipt proof) result }
    ensures no_fault { result ≢ Err End.ReadFault }
{
    let length = proof.receipt.len() as u64;
    if length > MOST_RECEIPT_BYTES {
        let lines = too_long_text(alloc, receipt.as_str())?;
        return Ok(Answer::new(Status::TooLong, lines));
    }
    let lines = proved_text(alloc, &proof.report, length)?;
    Ok(Answer {
        status: Status::Done,
        lines,
        file: Some(NewFile {
            name: receipt,
            bytes: proof.receipt,
        }),
    })
}
