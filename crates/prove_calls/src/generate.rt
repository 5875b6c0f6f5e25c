//! `generate NUMBER SIZE CYCLES PAGES 0`.
ghost use Rattle.std.specs.Prelude.{◌≡◌, ◌≢◌, ◌≤◌, ℕ, List, IfOk, IfErr, Err};
ghost use Rattle.page_core.specs.Images.{Image as PlainImage};
ghost use Rattle.elf_image.specs.Loaded.{Loads, image_of};
ghost use Rattle.guest_gen.specs.Assembly.{IsAssembled};
ghost use Rattle.guest_gen.specs.Generator.{generated_guest};
ghost use Rattle.guest_gen.specs.declared.generator.TheConstants.{SIZE_MAX};
ghost use Rattle.command_frame.specs.Ends.{HasCause, IsEnded};
ghost use Rattle.prove_calls.specs.Generate.{AnswersGenerate};
ghost use Rattle.prove_calls.specs.Generating.{HasCost};

use crate::proof::prove_run;
use byte_cursor::{ItemList, WordList};
use check_core::Checked;
use cli_text::{Status, generate_text};
use command_frame::{Answer, End};
use digest_core::Digester;
use elf_image::{ElfStop, Image, load};
use executor::Limits;
use flat_machine::Flat;
use guest_gen::generate as generate_guest;
use std::alloc::{AllocError, Global};

// The answer with the report of the proof of the generator's guest of a number and a size.
pub(crate) fn generate<D: Digester>(
    alloc: Global,
    number: u64,
    size: u32,
    limits: Limits,
) -> Result<Answer, End>
    requires some { 1 ≤ size }
    requires few { size ≤ SIZE_MAX }
    ensures answer { IsEnded (AnswersGenerate D.digest_of
        (record { number = number; size = size; limits = limits })) result }
    ensures no_fault { result ≢ Err End.ReadFault }
{
    let (elf, words) = generate_guest(alloc, number, size)?;
    let image = load_generated(alloc, elf.as_slice(), size)?;
    let copies = copied(alloc, words.as_slice())?;
    let others = ItemList::<Checked<D>>::new(alloc);
    let proof = prove_run::<D>(alloc, image, copies, limits, others.as_slice())?;
    let input = words.len() as u64;
    let image = load_generated(alloc, elf.as_slice(), size)?;
    let cycles = cost_of(alloc, image, words, limits.limit())?;
    let lines = generate_text(
        alloc,
        number,
        size,
        elf.len() as u64,
        input,
        cycles,
        &proof.report,
        proof.receipt.len() as u64,
    )?;
    Ok(Answer::new(Status::Done, lines))
}

// The image that the generator's ELF file loads.
fn load_generated(alloc: Global, elf: &[u8], size: u32) -> Result<Image, AllocError>
    requires { IsAssembled (generated_guest size) elf.now }
    ensures { IfOk result (λ image. Loads elf.now (image_of image)) }
{
    match load(alloc, elf) {
        Ok(image) => Ok(image),
        Err(ElfStop::Memory) => Err(AllocError),
        Err(_) => unreachable!(),
    }
}

// The same words once more.
fn copied(alloc: Global, words: &[u32]) -> Result<WordList, AllocError>
    ensures { IfOk result (λ copies. copies.items ≡ words.now) }
{
    let mut copies = WordList::new(alloc);
    for word in words {
        copies.push(*word)?;
    }
    Ok(copies)
}

// What a run costs.
fn cost_of(alloc: Global, image: Image, words: WordList, limit: u64) -> Result<u64, AllocError>
    ensures { IfOk result (λ cycles. HasCost (image_of image) words.items limit cycles) }
{
    let mut flat = Flat::new(alloc, image, words);
    flat.run(limit)?;
    Ok(flat.cycles())
}
