//! Reading a whole file, piece by piece.
ghost use Rattle.std.specs.Prelude.{◌≡◌, ℕ, ◌+◌, ◌≤◌, length, vec_len, IfOk, IfSome};
ghost use Rattle.outside.specs.Faults.{Rose};
ghost use Rattle.outside.specs.ReadAll.{ReadAll};

use crate::stop::ReadAllStop;
use crate::traits::Desk;
use byte_cursor::{ByteList, Out};
use std::alloc::{AllocError, Global};

// How many bytes one read asks for. They stand on the heap: on the stack each call would pay for
// them at its entry.
const PIECE: usize = 65_536;

/// Reads the whole of a file of at most `limit` bytes, in at most `limit` + 2 reads.
///
/// Where the desk tells what it holds, Ok gives exactly the file's bytes, `NoFile` comes exactly
/// where the name is absent, and `TooLong` exactly where the file has more than `limit` bytes,
/// unless a read failed or memory was wanting. `Fault` comes only where the desk's count of faults
/// in reads rose, or stands at 2^64 - 1. `Memory` is want of memory. The desk holds what it held.
pub fn read_all<K: Desk>(
    alloc: Global,
    desk: &mut K,
    name: &str,
    limit: u64,
) -> Result<ByteList, ReadAllStop>
    ensures told { IfSome (K.contents desk.old) (λ files. ReadAll (files name.now) limit result) }
    ensures fault { result ≡ Err ReadAllStop.Fault →
        Rose (K.read_faults desk.old) (K.read_faults desk.new) }
    ensures within { IfOk result (λ list. length list.items ≤ limit) }
    ensures counted { K.calls desk.new ≤ K.calls desk.old + limit + 2 }

    ensures contents { K.contents desk.new ≡ K.contents desk.old }
    ensures read_faults { K.read_faults desk.old ≤ K.read_faults desk.new }
    ensures write_faults { K.write_faults desk.new ≡ K.write_faults desk.old }
{
    let mut out = Out::new(alloc);
    let Ok(mut room) = room_for(alloc, PIECE) else {
        return Err(ReadAllStop::Memory);
    };
    let buffer = room.as_mut_slice();
    let mut at: u64 = 0;
    loop {
        match desk.read_at(name, at, buffer) {
            Err(_) => return Err(ReadAllStop::Fault),
            Ok(None) => return Err(ReadAllStop::NoFile),
            Ok(Some(0)) => return Ok(out.finish()),
            Ok(Some(n)) => {
                let taken = n as u64;
                if limit - at < taken {
                    return Err(ReadAllStop::TooLong);
                }
                if out.put_all(&buffer[..n]).is_err() {
                    return Err(ReadAllStop::Memory);
                }
                at += taken;
            }
        }
    }
}

// Memory for the bytes of one read.
fn room_for(alloc: Global, count: usize) -> Result<Vec<u8>, AllocError>
    ensures { IfOk result (λ room. vec_len room ≡ count) }
{
    vec![in alloc; 0; count]
}
