//! The lines of audits.
ghost use Rattle.std.specs.Prelude.{◌≡◌, IfOk};
ghost use Rattle.std.specs.Int.{w32, to_le_bytes};
ghost use Rattle.std.specs.List.{flat_map};
ghost use Rattle.cli_text.specs.Audits.{sound_lines, collision_lines, finding_lines, no_entry_lines, other_image_lines, audit_stop_lines};

use crate::refusals::check_stop_text;
use crate::texts::bytes_of;
use audit::{AuditStop, Finding};
use byte_cursor::{ByteList, Out};
use collide::Pair;
use digest_core::Digest;
use std::alloc::{AllocError, Global};

/// The lines of what an audit finds. An AllocError is want of memory.
pub fn finding_text(alloc: Global, finding: &Finding) -> Result<ByteList, AllocError>
    ensures { IfOk result (λ text. text.items ≡ finding_lines finding.now) }
{
    match finding {
        Finding::Sound { words } => sound_text(alloc, words.as_slice()),
        Finding::Collision(pair) => collision_text(alloc, pair),
    }
}

// The lines of an entry that is sound on these words.
fn sound_text(alloc: Global, words: &[u32]) -> Result<ByteList, AllocError>
    ensures { IfOk result (λ text. text.items ≡ sound_lines words.now) }
{
    if words.is_empty() {
        return bytes_of(alloc, "sound\nwords 0\n");
    }
    let count = words.len();
    let bytes = input_of(alloc, words)?;
    let digits = hex::encode(alloc, bytes.as_slice())?;
    let text = format!(in alloc; "sound\nwords {count} {digits}\n")?;
    bytes_of(alloc, text.as_str())
}

// Words as an input file has them.
fn input_of(alloc: Global, words: &[u32]) -> Result<ByteList, AllocError>
    ensures { IfOk result (λ bytes. bytes.items ≡ flat_map (to_le_bytes w32) words.now) }
{
    let mut out = Out::new(alloc);
    for word in words {
        out.put_u32(*word)?;
    }
    Ok(out.finish())
}

// The lines of two strings with one digest.
fn collision_text(alloc: Global, pair: &Pair) -> Result<ByteList, AllocError>
    ensures { IfOk result (λ text. text.items ≡ collision_lines pair.now) }
{
    let (left_count, right_count) = (pair.left.len(), pair.right.len());
    let left = hex::encode(alloc, pair.left.as_slice())?;
    let right = hex::encode(alloc, pair.right.as_slice())?;
    let text = format!(in alloc;
        "collision\nleft {left_count} {left}\nright {right_count} {right}\n"
    )?;
    bytes_of(alloc, text.as_str())
}

/// The line of an audit of the entry of this number that isn't made; of want of memory a line without a cause. An
/// AllocError is want of memory.
pub fn audit_stop_text(alloc: Global, entry: u16, stop: &AuditStop) -> Result<ByteList, AllocError>
    ensures { IfOk result (λ text. text.items ≡ audit_stop_lines entry stop.now) }
{
    match *stop {
        AuditStop::Refused(stop) => check_stop_text(alloc, &stop),
        AuditStop::NoEntry { count } => no_entry_text(alloc, entry, count),
        AuditStop::OtherImage { wanted, found } => other_image_text(alloc, &wanted, &found),
        AuditStop::Memory => bytes_of(alloc, "refused \n"),
    }
}

// The line of an entry that isn't there, where there are so many.
fn no_entry_text(alloc: Global, entry: u16, count: u32) -> Result<ByteList, AllocError>
    ensures { IfOk result (λ text. text.items ≡ no_entry_lines entry count) }
{
    let text = format!(in alloc; "refused entry {entry} {count}\n")?;
    bytes_of(alloc, text.as_str())
}

// The line of an image whose id isn't the digest of the entry's first state.
fn other_image_text(alloc: Global, wanted: &Digest, found: &Digest) -> Result<ByteList, AllocError>
    ensures { IfOk result (λ text. text.items ≡ other_image_lines wanted.now found.now) }
{
    let text = format!(in alloc; "refused other-image {wanted} {found}\n")?;
    bytes_of(alloc, text.as_str())
}
