ghost use Rattle.std.specs.Prelude.{◌≡◌, ◌++◌, length, string_bytes, decimal, IfOk};
ghost use Rattle.cli_text.specs.Lines.{journal_tail};

use std::alloc::{AllocError, Global};

/// A journal's length in bytes, decimal, and, where it isn't empty, a space and its bytes in lower-case hexadecimal
/// digits. An AllocError is want of memory.
pub fn journal_text(alloc: Global, bytes: &[u8]) -> Result<String, AllocError>
    ensures { IfOk result
        (λ text. string_bytes text ≡ decimal (length bytes.now) ++ journal_tail bytes.now) }
{
    let count = bytes.len();
    if bytes.is_empty() {
        return format!(in alloc; "{count}");
    }
    let digits = hex::encode(alloc, bytes)?;
    format!(in alloc; "{count} {digits}")
}
