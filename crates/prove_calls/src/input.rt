ghost use Rattle.std.specs.Prelude.{◌≡◌, ◌≢◌, ◌%◌, length, IfOk, IfSome, IfNone};
ghost use Rattle.prove_calls.specs.Guest.{IsInput};

use byte_cursor::{Cursor, WordList};
use std::alloc::{AllocError, Global};

// The words of an input file's bytes; None exactly where these are no whole words.
pub(crate) fn input_words(alloc: Global, bytes: &[u8]) -> Result<Option<WordList>, AllocError>
    ensures some { IfOk result (λ input. IfSome input (λ words. IsInput bytes.now words.items)) }
    ensures none { IfOk result (λ input. IfNone input (length bytes.now % 4 ≢ 0)) }
{
    if bytes.len() % 4 != 0 {
        return Ok(None);
    }
    let mut cursor = Cursor::new(bytes);
    let mut words = WordList::new(alloc);
    while let Some(word) = cursor.take_u32() {
        words.push(word)?;
    }
    Ok(Some(words))
}
