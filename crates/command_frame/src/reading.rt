//! Reading the files that a command names.
ghost use Rattle.std.specs.Prelude.{◌≡◌, ◌≤◌, IfOk, IfErr, Err};
ghost use Rattle.outside.specs.Faults.{Rose};
ghost use Rattle.command_frame.specs.Ends.{HasCause};
ghost use Rattle.command_frame.specs.Reading.{IsRead, IsUnread};

use crate::end::{Answer, End};
use byte_cursor::ByteList;
use cli_text::{Status, no_file_text, too_long_text};
use outside::{Desk, ReadAllStop, read_all};
use std::alloc::Global;

/// The most bytes of an ELF file that is read.
pub const MOST_ELF_BYTES: u64 = 67_108_864;

/// The most bytes of an input file that is read.
pub const MOST_INPUT_BYTES: u64 = 67_108_864;

/// The most bytes of a receipt that is read or written.
pub const MOST_RECEIPT_BYTES: u64 = 1_073_741_824;

/// The bytes of a file of at most `limit` bytes. Err: there is no such file, it is longer, the read failed, or memory was
/// wanting. The desk holds what it held.
#[tactic(auto, using(crate::proofs::Whole::is_too_long))]
pub fn read_file<K: Desk>(
    alloc: Global,
    desk: &mut K,
    name: &str,
    limit: u64,
) -> Result<ByteList, End>
    ensures read { IfOk result (λ bytes. IsRead limit name.now (K.contents desk.old) bytes.items) }
    ensures unread { IfErr result (HasCause (IsUnread limit name.now (K.contents desk.old))) }
    ensures fault { result ≡ Err End.ReadFault →
        Rose (K.read_faults desk.old) (K.read_faults desk.new) }
    ensures contents { K.contents desk.new ≡ K.contents desk.old }
    ensures read_faults { K.read_faults desk.old ≤ K.read_faults desk.new }
    ensures write_faults { K.write_faults desk.new ≡ K.write_faults desk.old }
{
    match read_all(alloc, desk, name, limit) {
        Ok(bytes) => Ok(bytes),
        Err(ReadAllStop::NoFile) => {
            let lines = no_file_text(alloc, name)?;
            Err(End::Told(Answer::new(Status::NoFile, lines)))
        }
        Err(ReadAllStop::TooLong) => {
            let lines = too_long_text(alloc, name)?;
            Err(End::Told(Answer::new(Status::TooLong, lines)))
        }
        Err(ReadAllStop::Fault) => Err(End::ReadFault),
        Err(ReadAllStop::Memory) => Err(End::Memory),
    }
}
