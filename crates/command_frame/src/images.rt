//! The images of guests, from their ELF files.
ghost use Rattle.std.specs.Prelude.{◌≡◌, ◌≢◌, ◌≤◌, IfOk, IfErr, Err};
ghost use Rattle.outside.specs.Faults.{Rose};
ghost use Rattle.elf_image.specs.Loaded.{Loads, image_of};
ghost use Rattle.command_frame.specs.Ends.{HasCause};
ghost use Rattle.command_frame.specs.Reading.{IsBadElf, HasImage, HasNoImage};

use crate::end::{Answer, End};
use crate::reading::{MOST_ELF_BYTES, read_file};
use cli_text::{Status, elf_stop_text};
use elf_image::{ElfStop, Image, load};
use outside::Desk;
use std::alloc::Global;

/// The image that the bytes of an ELF file load. Err: they fail a test, or memory was wanting.
pub fn load_image(alloc: Global, bytes: &[u8]) -> Result<Image, End>
    ensures loads { IfOk result (λ image. Loads bytes.now (image_of image)) }
    ensures bad { IfErr result (HasCause (IsBadElf bytes.now)) }
    ensures no_fault { result ≢ Err End.ReadFault }
{
    match load(alloc, bytes) {
        Ok(image) => Ok(image),
        Err(ElfStop::Memory) => Err(End::Memory),
        Err(stop) => {
            let lines = elf_stop_text(alloc, &stop)?;
            Err(End::Told(Answer::new(Status::BadFile, lines)))
        }
    }
}

/// The image that the ELF file of a name loads. Err: there is no such file, it is too long or fails a test, the read failed, or
/// memory was wanting. The desk holds what it held.
pub fn read_image<K: Desk>(alloc: Global, desk: &mut K, name: &str) -> Result<Image, End>
    ensures image { IfOk result
        (λ image. HasImage name.now (K.contents desk.old) (image_of image)) }
    ensures none { IfErr result (HasCause (HasNoImage name.now (K.contents desk.old))) }
    ensures fault { result ≡ Err End.ReadFault →
        Rose (K.read_faults desk.old) (K.read_faults desk.new) }
    ensures contents { K.contents desk.new ≡ K.contents desk.old }
    ensures read_faults { K.read_faults desk.old ≤ K.read_faults desk.new }
    ensures write_faults { K.write_faults desk.new ≡ K.write_faults desk.old }
{
    let bytes = read_file(alloc, desk, name, MOST_ELF_BYTES)?;
    load_image(alloc, bytes.as_slice())
}
