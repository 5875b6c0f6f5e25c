//! The guest and its input words, from their files.
ghost use Rattle.std.specs.Prelude.{◌≡◌, ◌≢◌, ◌≤◌, IfOk, IfErr, Err};
ghost use Rattle.outside.specs.Faults.{Rose};
ghost use Rattle.elf_image.specs.Loaded.{image_of};
ghost use Rattle.command_frame.specs.Ends.{HasCause};
ghost use Rattle.prove_calls.specs.Guest.{IsInput, IsBadInput, HasGuest, HasNoGuest};

use crate::input::input_words;
use byte_cursor::WordList;
use cli_text::{Status, bad_input_text};
use command_frame::{Answer, End, MOST_INPUT_BYTES, read_file, read_image};
use elf_image::Image;
use outside::Desk;
use std::alloc::Global;

// A guest's image and its input words.
#[derive(Drop)]
pub(crate) struct Guest {
    pub image: Image,
    pub words: WordList,
}

// The guest in an ELF file, with the words of an input file.
pub(crate) fn read_guest<K: Desk>(
    alloc: Global,
    desk: &mut K,
    elf: &str,
    input: &str,
) -> Result<Guest, End>
    ensures guest { IfOk result (λ guest.
        HasGuest elf.now input.now (K.contents desk.old) (image_of guest.image) guest.words.items) }
    ensures none { IfErr result (HasCause (HasNoGuest elf.now input.now (K.contents desk.old))) }
    ensures fault { result ≡ Err End.ReadFault →
        Rose (K.read_faults desk.old) (K.read_faults desk.new) }
    ensures contents { K.contents desk.new ≡ K.contents desk.old }
    ensures read_faults { K.read_faults desk.old ≤ K.read_faults desk.new }
    ensures write_faults { K.write_faults desk.new ≡ K.write_faults desk.old }
{
    let image = read_image(alloc, desk, elf)?;
    let bytes = read_file(alloc, desk, input, MOST_INPUT_BYTES)?;
    let words = load_words(alloc, bytes.as_slice())?;
    Ok(Guest { image, words })
}

// The words of an input file.
fn load_words(alloc: Global, bytes: &[u8]) -> Result<WordList, End>
    ensures words { IfOk result (λ words. IsInput bytes.now words.items) }
    ensures bad { IfErr result (HasCause (IsBadInput bytes.now)) }
    ensures no_fault { result ≢ Err End.ReadFault }
{
    match input_words(alloc, bytes)? {
        Some(words) => Ok(words),
        None => {
            let lines = bad_input_text(alloc, bytes.len() as u64)?;
            Err(End::Told(Answer::new(Status::BadFile, lines)))
        }
    }
}
