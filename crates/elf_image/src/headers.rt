ghost use Rattle.std.specs.Prelude.{◌≡◌, ◌+◌, ◌*◌, ◌≤◌, ◌⊎◌, length, Some, None, IfOk, IfErr};
ghost use Rattle.elf_image.specs.Headers as headers;
ghost use Rattle.elf_image.specs.Tests.{header_tests, first_fault};

use crate::fields::{half_at, word_at};
use crate::stop::ElfStop;

/// A load header: a range of memory, and the file bytes at its beginning.
#[derive(Clone, Copy, Debug, PartialEq, Eq)]
pub(crate) struct LoadHeader {
    /// Where its bytes begin in the file.
    pub(crate) offset: u32,
    /// Where the range begins in memory.
    pub(crate) address: u32,
    /// How many bytes are the file's.
    pub(crate) file_size: u32,
    /// How many bytes the range has.
    pub(crate) memory_size: u32,
}

// What the file's header tells.
#[derive(Clone, Copy)]
pub(crate) struct FileHeader {
    pub(crate) entry: u32,
    // Where the program headers begin in the file, and how many there are, of 32 bytes each.
    pub(crate) headers_at: u32,
    pub(crate) header_count: u16,
}

// The file's header, or the first of its tests that fails.
pub(crate) fn file_header(file: &[u8]) -> Result<FileHeader, ElfStop>
    ensures passes { IfOk result (λ header. first_fault (header_tests file.now) ≡ None) }
    ensures entry { IfOk result (λ header. header.entry ≡ headers.entry_of file.now) }
    ensures at { IfOk result (λ header. header.headers_at ≡ headers.headers_at file.now) }
    ensures count { IfOk result (λ header. header.header_count ≡ headers.header_count file.now) }
    ensures few { IfOk result (λ header. header.header_count ≤ 64) }
    ensures within { IfOk result
        (λ header. (header.header_count ≡ 0)
        ⊎ (header.headers_at + 32 * header.header_count ≤ length file.now)) }
    ensures fault { IfErr result (λ stop. first_fault (header_tests file.now) ≡ Some stop) }
{
    if file.len() < 52 {
        return Err(ElfStop::Short);
    }
    if file[..4] != [0x7F, 0x45, 0x4C, 0x46] {
        return Err(ElfStop::Magic);
    }
    if file[4] != 1 {
        return Err(ElfStop::Class);
    }
    if file[5] != 1 {
        return Err(ElfStop::Order);
    }
    if file[6] != 1 || word_at(file, 20) != 1 {
        return Err(ElfStop::Version);
    }
    if half_at(file, 16) != 2 {
        return Err(ElfStop::FileType);
    }
    if half_at(file, 18) != 243 {
        return Err(ElfStop::Machine);
    }
    let header = FileHeader {
        entry: word_at(file, 24),
        headers_at: word_at(file, 28),
        header_count: half_at(file, 44),
    };
    if header.header_count == 0 {
        return Ok(header);
    }
    if half_at(file, 42) != 32 {
        return Err(ElfStop::HeaderSize);
    }
    if header.header_count > 64 {
        return Err(ElfStop::TooManyHeaders);
    }
    let end = header.headers_at as u64 + 32 * header.header_count as u64;
    if end > file.len() as u64 {
        return Err(ElfStop::HeaderRange);
    }
    Ok(header)
}

// The load header at a place.
pub(crate) fn load_at(file: &[u8], at: usize) -> LoadHeader
    requires { at + 32 ≤ length file.now }
    ensures { result ≡ headers.load_at file.now at }
{
    LoadHeader {
        offset: word_at(file, at + 4),
        address: word_at(file, at + 8),
        file_size: word_at(file, at + 16),
        memory_size: word_at(file, at + 20),
    }
}
