//! The lines of refused receipts, and of proofs that other receipts don't complete.
ghost use Rattle.std.specs.Prelude.{◌≡◌, IfOk};
ghost use Rattle.cli_text.specs.Refusals.{stop_lines, bad_receipt_lines, no_receipt_lines, too_many_entries_lines};

use crate::texts::bytes_of;
use byte_cursor::ByteList;
use check_core::CheckStop;
use std::alloc::{AllocError, Global};

/// The line of a receipt that is refused with a stop; of want of memory a line without a cause. An AllocError is want of
/// memory.
#[tactic(auto, using(std::proofs::Common::append_assoc))]
pub fn check_stop_text(alloc: Global, stop: &CheckStop) -> Result<ByteList, AllocError>
    ensures { IfOk result (λ text. text.items ≡ stop_lines stop.now) }
{
    let text = format!(in alloc; "refused {stop}\n")?;
    bytes_of(alloc, text.as_str())
}

/// The line of the other receipt of an index, from 0, that is refused with a stop; of want of memory a line without a
/// cause. An AllocError is want of memory.
pub fn bad_receipt_text(alloc: Global, index: u32, stop: &CheckStop) -> Result<ByteList, AllocError>
    ensures { IfOk result (λ text. text.items ≡ bad_receipt_lines index stop.now) }
{
    let text = format!(in alloc; "bad-receipt {index} {stop}\n")?;
    bytes_of(alloc, text.as_str())
}

/// The line of an assumption call, from 0, that no receipt answers. An AllocError is want of memory.
pub fn no_receipt_text(alloc: Global, call: u64) -> Result<ByteList, AllocError>
    ensures { IfOk result (λ text. text.items ≡ no_receipt_lines call) }
{
    let text = format!(in alloc; "no-receipt {call}\n")?;
    bytes_of(alloc, text.as_str())
}

/// The line of a receipt that would have so many entries, more than 256. An AllocError is want of memory.
pub fn too_many_entries_text(alloc: Global, count: u64) -> Result<ByteList, AllocError>
    ensures { IfOk result (λ text. text.items ≡ too_many_entries_lines count) }
{
    let text = format!(in alloc; "too-many-entries {count}\n")?;
    bytes_of(alloc, text.as_str())
}
