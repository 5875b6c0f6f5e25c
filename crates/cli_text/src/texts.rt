ghost use Rattle.std.specs.Prelude.{◌≡◌, IfOk};

use byte_cursor::ByteList;
use std::alloc::{AllocError, Global};

// The bytes of a text.
pub(crate) fn bytes_of(alloc: Global, text: &str) -> Result<ByteList, AllocError>
    ensures { IfOk result (λ bytes. bytes.items ≡ text.now) }
{
    let mut bytes = ByteList::new(alloc);
    bytes.extend(text.as_bytes())?;
    Ok(bytes)
}
