//! `inspect RECEIPT`.
ghost use Rattle.std.specs.Prelude.{◌≡◌, ◌≢◌, Err};
ghost use Rattle.outside.specs.Faults.{Rose};
ghost use Rattle.command_frame.specs.Ends.{IsEnded};
ghost use Rattle.check_calls.specs.Inspect.{AnswersInspect, Inspects};

use check_core::{CheckStop, Checked};
use cli_text::{Name, Status, check_stop_text};
use command_frame::{Answer, End, MOST_RECEIPT_BYTES, read_file};
use digest_core::Digester;
use inspect_json::report_text;
use outside::Desk;
use std::alloc::Global;

// The answer with the claims of the receipt of a name, which is checked under the digest of its own first state.
pub(crate) fn inspect<D: Digester, K: Desk>(
    alloc: Global,
    desk: &mut K,
    receipt: &Name,
) -> Result<Answer, End>
    ensures answer { IsEnded (AnswersInspect D.digest_of receipt.now (K.contents desk.old)) result }
    ensures fault { result ≡ Err End.ReadFault →
        Rose (K.read_faults desk.old) (K.read_faults desk.new) }
    ensures contents { K.contents desk.new ≡ K.contents desk.old }
    ensures write_faults { K.write_faults desk.new ≡ K.write_faults desk.old }
{
    let bytes = read_file(alloc, desk, receipt.as_str(), MOST_RECEIPT_BYTES)?;
    inspect_bytes::<D>(alloc, bytes.as_slice())
}

// The answer to the bytes of a receipt: its claims, or refused with the first stop.
fn inspect_bytes<D: Digester>(alloc: Global, bytes: &[u8]) -> Result<Answer, End>
    ensures inspects { IsEnded (Inspects D.digest_of bytes.now) result }
    ensures no_fault { result ≢ Err End.ReadFault }
{
    match Checked::<D>::read(alloc, bytes) {
        Ok(checked) => {
            let lines = report_text(alloc, checked.report())?;
            Ok(Answer::new(Status::Done, lines))
        }
        Err(CheckStop::Memory) => Err(End::Memory),
        Err(stop) => {
            let lines = check_stop_text(alloc, &stop)?;
            Ok(Answer::new(Status::Refused, lines))
        }
    }
}
