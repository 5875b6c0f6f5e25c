//! Memories of stored pages.
ghost use Rattle.page_core.specs.declared.sizes.TheConstants.{PAGES};
ghost use Rattle.std.specs.Prelude.{◌<◌, IfOk};

use crate::lines::{Hex, Lines};
use crate::shelf::Shelf;
use crate::stop::RowStop;
use crate::words::{decimal, hexadecimal, split_at_mark};
use page_core::{PAGES, Page, PageMap};
use std::alloc::{AllocError, Global};

/// Sets and asks a memory, in the order of the words, and adds each answer.
pub(crate) fn ask_pages(
    alloc: Global,
    shelf: &Shelf,
    out: &mut Lines,
    words: &[&str],
) -> Result<(), RowStop> {
    let mut pages = PageMap::new(alloc);
    for word in words {
        if word.contains('=') {
            set_pages(shelf, &mut pages, word)?;
        } else {
            add_answer(alloc, out, &pages, word)?;
        }
    }
    Ok(())
}

/// `byte:ADDRESS=BYTE`, `half:ADDRESS=HALF`, `word:ADDRESS=WORD`, `bytes:ADDRESS=NAME`, `page:NUMBER=NAME`.
pub(crate) fn set_pages(shelf: &Shelf, pages: &mut PageMap, word: &str) -> Result<(), RowStop> {
    let (kind, text) = split_at_mark(word, ':')?;
    let (place, value) = split_at_mark(text, '=')?;
    match kind {
        "page" => set_page(pages, page_number(place)?, shelf.bytes(value)?),
        "bytes" => set_bytes(pages, hexadecimal(place)?, shelf.bytes(value)?),
        _ => set_number(pages, kind, hexadecimal(place)?, hexadecimal(value)?),
    }
}

fn set_page(pages: &mut PageMap, number: u32, bytes: &[u8]) -> Result<(), RowStop>
    requires { number < PAGES }
{
    Ok(pages.put_page(number, &page_of(bytes)?)?)
}

fn set_bytes(pages: &mut PageMap, address: u32, bytes: &[u8]) -> Result<(), RowStop> {
    if address > 0x1000_0000 || bytes.len() > (0x1000_0000 - address) as usize {
        return Err(RowStop::NoRow);
    }
    Ok(pages.set_bytes(address, bytes)?)
}

fn set_number(pages: &mut PageMap, kind: &str, address: u32, value: u32) -> Result<(), RowStop> {
    if address >= 0x1000_0000 {
        return Err(RowStop::NoRow);
    }
    let [first, second, _, _] = value.to_le_bytes();
    match kind {
        "byte" => Ok(pages.set_byte(address, first)?),
        "half" if address % 2 == 0 => {
            Ok(pages.set_half(address, u16::from_le_bytes([first, second]))?)
        }
        "word" if address % 4 == 0 => Ok(pages.set_word(address, value)?),
        _ => Err(RowStop::NoRow),
    }
}

// `byte:ADDRESS`, `half:ADDRESS`, `word:ADDRESS`, `page:NUMBER`, `from:NUMBER`.
fn add_answer(
    alloc: Global,
    out: &mut Lines,
    pages: &PageMap,
    question: &str,
) -> Result<(), RowStop> {
    let (kind, place) = split_at_mark(question, ':')?;
    let answer = answer_of(alloc, pages, kind, place)?;
    out.add(format_args!("{question} {answer}"))
}

fn answer_of(alloc: Global, pages: &PageMap, kind: &str, place: &str) -> Result<String, RowStop> {
    match kind {
        "page" => Ok(stored_text(alloc, pages.page(page_number(place)?).is_some())?),
        "from" => next_text(alloc, pages, decimal(place)?),
        _ => number_at(alloc, pages, kind, hexadecimal(place)?),
    }
}

// The first stored page from a number on.
fn next_text(alloc: Global, pages: &PageMap, number: u32) -> Result<String, RowStop> {
    let found = pages.next_from(number).map(|found| found.0);
    Ok(format!(in alloc; "{found:?}")?)
}

fn number_at(alloc: Global, pages: &PageMap, kind: &str, address: u32) -> Result<String, RowStop> {
    if address >= 0x1000_0000 {
        return Err(RowStop::NoRow);
    }
    match kind {
        "byte" => {
            let byte = pages.byte(address);
            Ok(format!(in alloc; "{byte:02x}")?)
        }
        "half" if address % 2 == 0 => {
            let half = pages.half(address);
            Ok(format!(in alloc; "{half:04x}")?)
        }
        "word" if address % 4 == 0 => {
            let word = pages.word(address);
            Ok(format!(in alloc; "{word:08x}")?)
        }
        _ => Err(RowStop::NoRow),
    }
}

/// Whether a page is stored, in words.
pub(crate) fn stored_text(alloc: Global, is_stored: bool) -> Result<String, AllocError> {
    String::from_str(alloc, if is_stored { "stored" } else { "absent" })
}

/// The number of a page of a memory.
pub(crate) fn page_number(text: &str) -> Result<u32, RowStop>
    ensures { IfOk result (λ number. number < PAGES) }
{
    let number = decimal(text)?;
    if number >= PAGES {
        return Err(RowStop::NoRow);
    }
    Ok(number)
}

/// The page that begins with these bytes, the others being zero.
pub(crate) fn page_of(bytes: &[u8]) -> Result<Page, RowStop> {
    if bytes.len() > 1024 {
        return Err(RowStop::NoRow);
    }
    let mut page = [0; 1024];
    page[..bytes.len()].copy_from_slice(bytes);
    Ok(Page::of(&page))
}
