//! Reading a seal.
ghost use Rattle.std.specs.Prelude.{◌≡◌, ◌≢◌, ◌++◌, ◌↔◌, ℕ, IsTrue, Err, IfOk, IfSome, IfNone, OnErr};
ghost use Rattle.std.specs.Int.{w32, to_le_bytes};
ghost use Rattle.std.specs.List.{flat_map};
ghost use Rattle.receipt_types.specs.Limits.{SealLimits};
ghost use Rattle.receipt_types.specs.Spelling.{seal_bytes};
ghost use Rattle.receipt_codec.specs.Reading.{NoneSpelled};
ghost use Rattle.receipt_codec.specs.Fields.{fields_bytes, FieldLimits, AreWords};

use crate::stop::ReadStop;
use crate::tree::{bytes_left, read_tree};
use byte_cursor::{Cursor, WordList};
use receipt_types::{MOST_STEPS, MOST_WORDS, Seal};
use std::alloc::Global;

// The numbers at the front of a seal: its pc, its steps, and the number of its words.
#[derive(Clone, Copy)]
struct Fields {
    pc: u32,
    steps: u32,
    count: u32,
}

impl Fields {
    // Whether a seal may have these numbers.
    fn keep_limits(self) -> bool
        ensures { IsTrue result ↔ FieldLimits self }
    {
        self.pc % 4 == 0 && self.steps != 0 && self.steps <= MOST_STEPS && self.count <= MOST_WORDS
    }
}

/// Reads a seal: the one that a prefix of the bytes left spells; the cursor then stands directly
/// after it. Its pc is a multiple of 4, it has 1 to 16,777,216 steps and at most 16,777,216 words,
/// and its tree is canonical.
///
/// Malformed comes exactly where no prefix spells such a seal, unless memory is wanting; Version never comes. A number
/// of words past the limit is refused before any word is read, and memory is asked for as the words
/// come. After an error the cursor stands where it stood.
pub fn read_seal(alloc: Global, cursor: &mut Cursor) -> Result<Seal, ReadStop>
    ensures limits { IfOk result (λ seal. SealLimits seal) }
    ensures spelled { IfOk result (λ seal. cursor.old ≡ seal_bytes seal ++ cursor.new) }
    ensures malformed { result ≡ Err ReadStop.Malformed →
        NoneSpelled seal_bytes SealLimits cursor.old }
    ensures no_version { (v : ℕ) → result ≢ Err (ReadStop.Version v) }
    ensures kept { OnErr result (cursor.new ≡ cursor.old) }
{
    let mut ahead = Cursor::new(bytes_left(cursor));
    let Some(Fields { pc, steps, count }) = read_fields(&mut ahead) else {
        return Err(ReadStop::Malformed);
    };
    let words = read_words(alloc, &mut ahead, count)?;
    let tree = read_tree(alloc, &mut ahead)?;
    *cursor = ahead;
    Ok(Seal {
        pc,
        steps,
        words,
        tree,
    })
}

// Reads the numbers at the front of a seal. After None the cursor stands anywhere.
fn read_fields(cursor: &mut Cursor) -> Option<Fields>
    ensures limits { IfSome result FieldLimits }
    ensures spelled { IfSome result (λ fields. cursor.old ≡ fields_bytes fields ++ cursor.new) }
    ensures none { IfNone result (NoneSpelled fields_bytes FieldLimits cursor.old) }
{
    let fields = Fields {
        pc: cursor.take_u32()?,
        steps: cursor.take_u32()?,
        count: cursor.take_u32()?,
    };
    if fields.keep_limits() {
        Some(fields)
    } else {
        None
    }
}

// Reads this many words. After an error the cursor stands anywhere.
fn read_words(alloc: Global, cursor: &mut Cursor, count: u32) -> Result<WordList, ReadStop>
    ensures words { IfOk result (λ words. AreWords count words.items) }
    ensures spelled { IfOk result
        (λ words. cursor.old ≡ flat_map (to_le_bytes w32) words.items ++ cursor.new) }
    ensures malformed { result ≡ Err ReadStop.Malformed →
        NoneSpelled (flat_map (to_le_bytes w32)) (AreWords count) cursor.old }
    ensures no_version { (v : ℕ) → result ≢ Err (ReadStop.Version v) }
{
    let mut words = WordList::new(alloc);
    for _ in 0..count {
        let word = cursor.take_u32().ok_or(ReadStop::Malformed)?;
        words.push(word)?;
    }
    Ok(words)
}
