//! Images of ELF files.

use crate::lines::Lines;
use crate::shelf::Shelf;
use crate::stop::RowStop;
use crate::words::hexadecimal;
use elf_image::{Image, load};
use std::alloc::Global;

/// Adds where the image of an ELF file begins, with the words of its memory at these addresses, or which test the file
/// fails.
pub(crate) fn load_file(
    alloc: Global,
    shelf: &Shelf,
    out: &mut Lines,
    words: &[&str],
) -> Result<(), RowStop> {
    let [name, addresses @ ..] = words else {
        return Err(RowStop::NoRow);
    };
    match load(alloc, shelf.bytes(name)?) {
        Ok(image) => add_image(out, &image, addresses),
        Err(stop) => out.add(format_args!("{stop:?}")),
    }
}

fn add_image(out: &mut Lines, image: &Image, addresses: &[&str]) -> Result<(), RowStop> {
    let entry = image.entry;
    out.add(format_args!("loaded, from {entry:08x}"))?;
    for address in addresses {
        add_word(out, image, hexadecimal(address)?)?;
    }
    Ok(())
}

// Adds the word at an address.
fn add_word(out: &mut Lines, image: &Image, address: u32) -> Result<(), RowStop> {
    if address % 4 != 0 || address >= 0x1000_0000 {
        return Err(RowStop::NoRow);
    }
    let word = image.map.word(address);
    out.add(format_args!("word {address:08x} {word:08x}"))
}

/// The image of an ELF file.
pub(crate) fn image_in(alloc: Global, shelf: &Shelf, name: &str) -> Result<Image, RowStop> {
    match load(alloc, shelf.bytes(name)?) {
        Ok(image) => Ok(image),
        Err(_) => Err(RowStop::NoRow),
    }
}
