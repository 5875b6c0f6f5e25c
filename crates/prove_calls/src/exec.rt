//! `exec ELF INPUT LIMIT`.
ghost use Rattle.std.specs.Prelude.{◌≡◌, ◌≢◌, Err};
ghost use Rattle.outside.specs.Faults.{Rose};
ghost use Rattle.elf_image.specs.Loaded.{image_of};
ghost use Rattle.command_frame.specs.Ends.{IsEnded};
ghost use Rattle.prove_calls.specs.Exec.{AnswersExec, IsExecuted};

use crate::guest::read_guest;
use byte_cursor::WordList;
use cli_text::{Name, Status, faulted_text, halted_text, over_limit_text};
use command_frame::{Answer, End};
use elf_image::Image;
use flat_machine::Flat;
use outside::Desk;
use rv_step::Outcome;
use std::alloc::Global;

// The answer with the outcome of the uncut run of the guest in two files, under a limit on its cost.
pub(crate) fn exec<K: Desk>(
    alloc: Global,
    desk: &mut K,
    elf: &Name,
    input: &Name,
    limit: u64,
) -> Result<Answer, End>
    ensures answer { IsEnded (AnswersExec
        (record { elf = elf.now; input = input.now; limit = limit }) (K.contents desk.old)) result }
    ensures fault { result ≡ Err End.ReadFault →
        Rose (K.read_faults desk.old) (K.read_faults desk.new) }
    ensures contents { K.contents desk.new ≡ K.contents desk.old }
    ensures write_faults { K.write_faults desk.new ≡ K.write_faults desk.old }
{
    let guest = read_guest(alloc, desk, elf.as_str(), input.as_str())?;
    run(alloc, guest.image, guest.words, limit)
}

// The answer with the outcome of the uncut run of an image and input words under a limit.
fn run(alloc: Global, image: Image, words: WordList, limit: u64) -> Result<Answer, End>
    ensures executed { IsEnded (IsExecuted (image_of image) words.items limit) result }
    ensures no_fault { result ≢ Err End.ReadFault }
{
    let mut flat = Flat::new(alloc, image, words);
    match flat.run(limit)? {
        Outcome::Halted(code) => {
            let lines = halted_text(
                alloc,
                code,
                flat.steps(),
                flat.cycles(),
                flat.journal().as_slice(),
                flat.calls().len() as u64,
            )?;
            Ok(Answer::new(Status::Done, lines))
        }
        Outcome::Faulted { fault, pc, step } => {
            let lines = faulted_text(alloc, step, pc, &fault)?;
            Ok(Answer::new(Status::Refused, lines))
        }
        Outcome::OverLimit { step } => {
            let lines = over_limit_text(alloc, step)?;
            Ok(Answer::new(Status::Refused, lines))
        }
    }
}
