//! `check RECEIPT ID`, and `check RECEIPT ID JOURNALFILE`.
ghost use Rattle.std.specs.Prelude.{◌≡◌, ◌≢◌, Err};
ghost use Rattle.outside.specs.Faults.{Rose};
ghost use Rattle.command_frame.specs.Ends.{IsEnded, new_file};
ghost use Rattle.check_calls.specs.Check.{AnswersCheck, Judges, journal_file as file_of};

use check_core::{CheckStop, Report, check};
use cli_text::{Name, Status, check_stop_text, valid_text};
use command_frame::{Answer, End, MOST_RECEIPT_BYTES, NewFile, read_file};
use digest_core::{Digest, Digester};
use outside::Desk;
use std::alloc::Global;

// The answer to a check of the receipt of a name under an id, whose journal is kept in the file of another name, if there is one.
pub(crate) fn check_receipt<D: Digester, K: Desk>(
    alloc: Global,
    desk: &mut K,
    receipt: &Name,
    id: &Digest,
    journal: Option<Name>,
) -> Result<Answer, End>
    ensures answer { IsEnded (AnswersCheck D.digest_of
        (record { receipt = receipt.now; id = id.now; journal = journal })
        (K.contents desk.old)) result }
    ensures fault { result ≡ Err End.ReadFault →
        Rose (K.read_faults desk.old) (K.read_faults desk.new) }
    ensures contents { K.contents desk.new ≡ K.contents desk.old }
    ensures write_faults { K.write_faults desk.new ≡ K.write_faults desk.old }
{
    let bytes = read_file(alloc, desk, receipt.as_str(), MOST_RECEIPT_BYTES)?;
    judge::<D>(alloc, bytes.as_slice(), id, journal)
}

// The answer to the bytes of a receipt: valid, or refused with the first stop.
fn judge<D: Digester>(
    alloc: Global,
    bytes: &[u8],
    id: &Digest,
    journal: Option<Name>,
) -> Result<Answer, End>
    ensures judges { IsEnded (Judges D.digest_of id.now journal bytes.now) result }
    ensures no_fault { result ≢ Err End.ReadFault }
{
    match check::<D>(alloc, bytes, id) {
        Ok(report) => {
            let lines = valid_text(alloc, &report)?;
            Ok(Answer {
                status: Status::Done,
                lines,
                file: journal_file(journal, report),
            })
        }
        Err(CheckStop::Memory) => Err(End::Memory),
        Err(stop) => {
            let lines = check_stop_text(alloc, &stop)?;
            Ok(Answer::new(Status::Refused, lines))
        }
    }
}

// The file of a name with the journal of a report, if there is a name.
fn journal_file(journal: Option<Name>, report: Report) -> Option<NewFile>
    ensures { new_file result ≡ file_of journal report }
{
    let name = journal?;
    Some(NewFile {
        name,
        bytes: report.journal,
    })
}
