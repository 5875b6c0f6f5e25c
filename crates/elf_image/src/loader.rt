ghost use Rattle.std.specs.Prelude.{◌≡◌, ◌+◌, ◌<◌, ◌≤◌, ◌⊎◌, ℕ, if◌then◌else◌, length, Some, OnOk, IfOk, IfErr};
ghost use Rattle.page_core.specs.Memory.{top};
ghost use Rattle.page_core.specs.Stored.{memory_of};
ghost use Rattle.claim_types.specs.States as states;
ghost use Rattle.elf_image.specs.Loaded.{image_of, loaded_byte, in_file, Loads};
ghost use Rattle.elf_image.specs.Tests.{elf_fault};
ghost use Rattle.elf_image.specs.declared.stop.ElfStop.TheVariants as ElfStop;

use crate::headers::{LoadHeader, file_header};
use crate::image::Image;
use crate::loads::load_headers;
use crate::stop::ElfStop;
use claim_types::{State, state_digest};
use digest_core::{Digest, Digester};
use page_core::{PageMap, TOP};
use page_tree::PageTree;
use std::alloc::{AllocError, Global};

/// Loads an ELF file: a 32-bit little-endian executable file for RISC-V (ELF32, ELF Header and Program Header). The file
/// bytes of its load headers are put into a memory of zeros. An error is the first test that the file fails, or want of
/// memory.
pub fn load(alloc: Global, file: &[u8]) -> Result<Image, ElfStop>
    ensures loads { IfOk result (λ image. Loads file.now (image_of image)) }
    ensures fault { IfErr result
        (λ stop. (stop ≡ ElfStop.Memory) ⊎ (elf_fault file.now ≡ Some stop)) }
{
    let header = file_header(file)?;
    let loads = load_headers(alloc, file, &header)?;
    if header.entry % 4 != 0 || header.entry >= TOP {
        return Err(ElfStop::Entry);
    }
    let mut map = PageMap::new(alloc);
    for load in loads.as_slice() {
        copy(&mut map, file, load)?;
    }
    Ok(Image {
        entry: header.entry,
        map,
    })
}

// Puts the file bytes of a load header into memory.
fn copy(map: &mut PageMap, file: &[u8], load: &LoadHeader) -> Result<(), AllocError>
    requires within { (load.now.file_size ≡ 0)
        ⊎ (load.now.offset + load.now.file_size ≤ length file.now) }
    requires below { (load.now.file_size ≡ 0) ⊎ (load.now.address + load.now.file_size ≤ top) }
    ensures { OnOk result
        ((a : ℕ) → memory_of map.new a
        ≡ (if in_file load.now a then loaded_byte file.now load.now a else memory_of map.old a)) }
{
    if load.file_size == 0 {
        return Ok(());
    }
    let start = load.offset as usize;
    map.set_bytes(load.address, &file[start..start + load.file_size as usize])
}

/// The image id: the digest of the state of the image's entry and the root of its memory. An AllocError is want of
/// memory.
pub fn image_id<D: Digester>(alloc: Global, image: &Image) -> Result<Digest, AllocError>
    ensures { IfOk result (λ id. id ≡ states.image_id D.digest_of (image_of image.now)) }
{
    let tree = PageTree::<D>::from_map(alloc, &image.map)?;
    let state = State {
        pc: image.entry,
        root: tree.root(),
    };
    Ok(state_digest::<D>(&state))
}
