ghost use Rattle.std.specs.Prelude.{◌≡◌, ◌+◌, ◌*◌, ◌≤◌, ◌⊎◌, [], length, Some, None, IsTrue, ◌↔◌, IfOk, IfErr};
ghost use Rattle.elf_image.specs.Headers as headers;
ghost use Rattle.elf_image.specs.Tests as tests;
ghost use Rattle.elf_image.specs.declared.stop.ElfStop.TheVariants as ElfStop;

use crate::fields::word_at;
use crate::headers::{FileHeader, LoadHeader, load_at};
use crate::stop::ElfStop;
use byte_cursor::ItemList;
use page_core::TOP;
use std::alloc::{AllocError, Global};

// The type of a load header, PT_LOAD.
const LOAD: u32 = 1;

pub(crate) type LoadList = ItemList<LoadHeader>;

impl LoadHeader {
    // Whether an address is one of the memory of both.
    fn meets(&self, other: &LoadHeader) -> bool
        ensures { result ≡ tests.meets self.now other.now }
    {
        let end = self.address as u64 + self.memory_size as u64;
        let other_end = other.address as u64 + other.memory_size as u64;
        self.memory_size != 0
            && other.memory_size != 0
            && (self.address as u64) < other_end
            && (other.address as u64) < end
    }

    // The first test that this load header fails, after others.
    fn fault(&self, file: &[u8], earlier: &[LoadHeader]) -> Option<ElfStop>
        ensures { result ≡ tests.first_fault (tests.load_tests file.now earlier.now self.now) }
    {
        let file_end = self.offset as u64 + self.file_size as u64;
        let end = self.address as u64 + self.memory_size as u64;
        if self.file_size != 0 && file_end > file.len() as u64 {
            return Some(ElfStop::FileRange);
        }
        if self.file_size > self.memory_size {
            return Some(ElfStop::SizeOrder);
        }
        if self.memory_size != 0 && end > TOP as u64 {
            return Some(ElfStop::AddressRange);
        }
        if earlier.iter().any(|load| self.meets(load)) {
            return Some(ElfStop::Overlap);
        }
        None
    }
}

// The load headers of a file, or the first of their tests that fails.
pub(crate) fn load_headers(
    alloc: Global,
    file: &[u8],
    header: &FileHeader,
) -> Result<LoadList, ElfStop>
    requires at { header.now.headers_at ≡ headers.headers_at file.now }
    requires count { header.now.header_count ≡ headers.header_count file.now }
    requires within { (header.now.header_count ≡ 0)
        ⊎ (header.now.headers_at + 32 * header.now.header_count ≤ length file.now) }
    ensures loads { IfOk result (λ loads. loads.items ≡ headers.loads_of file.now) }
    ensures passes { IfOk result
        (λ loads. tests.first_fault
        (tests.all_load_tests file.now [] (headers.loads_of file.now)) ≡ None) }
    ensures fault { IfErr result
        (λ stop. (stop ≡ ElfStop.Memory)
        ⊎ (tests.first_fault (tests.all_load_tests file.now [] (headers.loads_of file.now))
        ≡ Some stop)) }
{
    let mut loads = LoadList::new(alloc);
    for number in 0..header.header_count {
        let at = header.headers_at as usize + 32 * number as usize;
        if word_at(file, at) != LOAD {
            continue;
        }
        let load = load_at(file, at);
        if let Some(fault) = load.fault(file, loads.as_slice()) {
            return Err(fault);
        }
        loads.push(load)?;
    }
    Ok(loads)
}
