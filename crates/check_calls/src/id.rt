//! `id ELF`.
ghost use Rattle.std.specs.Prelude.{◌≡◌, Err};
ghost use Rattle.outside.specs.Faults.{Rose};
ghost use Rattle.command_frame.specs.Ends.{IsEnded};
ghost use Rattle.check_calls.specs.Id.{AnswersId};

use cli_text::{Name, Status, id_text};
use command_frame::{Answer, End, read_image};
use digest_core::Digester;
use elf_image::image_id;
use outside::Desk;
use std::alloc::Global;

// The answer with the id of the image that the ELF file of a name loads.
pub(crate) fn identify<D: Digester, K: Desk>(
    alloc: Global,
    desk: &mut K,
    elf: &Name,
) -> Result<Answer, End>
    ensures answer { IsEnded (AnswersId D.digest_of elf.now (K.contents desk.old)) result }
    ensures fault { result ≡ Err End.ReadFault →
        Rose (K.read_faults desk.old) (K.read_faults desk.new) }
    ensures contents { K.contents desk.new ≡ K.contents desk.old }
    ensures write_faults { K.write_faults desk.new ≡ K.write_faults desk.old }
{
    let image = read_image(alloc, desk, elf.as_str())?;
    let id = image_id::<D>(alloc, &image)?;
    let lines = id_text(alloc, &id)?;
    Ok(Answer::new(Status::Done, lines))
}
