//! The lines of files that can't be read, and the line of a guest's file that can.
ghost use Rattle.std.specs.Prelude.{◌≡◌, IfOk};
ghost use Rattle.cli_text.specs.Files.{no_file_lines, too_long_lines, bad_elf_lines, bad_input_lines, id_lines};

use crate::texts::bytes_of;
use byte_cursor::ByteList;
use digest_core::Digest;
use elf_image::ElfStop;
use std::alloc::{AllocError, Global};

/// The line where there is no file of this name. An AllocError is want of memory.
pub fn no_file_text(alloc: Global, name: &str) -> Result<ByteList, AllocError>
    ensures { IfOk result (λ text. text.items ≡ no_file_lines name.now) }
{
    let text = format!(in alloc; "no-file {name}\n")?;
    bytes_of(alloc, text.as_str())
}

/// The line where the file of this name has more bytes than are read. An AllocError is want of memory.
pub fn too_long_text(alloc: Global, name: &str) -> Result<ByteList, AllocError>
    ensures { IfOk result (λ text. text.items ≡ too_long_lines name.now) }
{
    let text = format!(in alloc; "too-long {name}\n")?;
    bytes_of(alloc, text.as_str())
}

/// The line of an ELF file that fails this test; of want of memory a line without a test. An AllocError is want of memory.
pub fn elf_stop_text(alloc: Global, stop: &ElfStop) -> Result<ByteList, AllocError>
    ensures { IfOk result (λ text. text.items ≡ bad_elf_lines stop.now) }
{
    let text = format!(in alloc; "bad elf {stop}\n")?;
    bytes_of(alloc, text.as_str())
}

/// The line of an input file of so many bytes, which are no whole words. An AllocError is want of memory.
pub fn bad_input_text(alloc: Global, length: u64) -> Result<ByteList, AllocError>
    ensures { IfOk result (λ text. text.items ≡ bad_input_lines length) }
{
    let text = format!(in alloc; "bad-input {length}\n")?;
    bytes_of(alloc, text.as_str())
}

/// The line of an image's id. An AllocError is want of memory.
pub fn id_text(alloc: Global, id: &Digest) -> Result<ByteList, AllocError>
    ensures { IfOk result (λ text. text.items ≡ id_lines id.now) }
{
    let text = format!(in alloc; "id {id}\n")?;
    bytes_of(alloc, text.as_str())
}
