use crate::lines::Hex;
use crate::shelf::Shelf;
use crate::stop::RowStop;
use std::alloc::Global;

/// The words of a command: `''` is an empty one, `~` in a word is a space, and `$NAME` is a file's bytes in hexadecimal.
pub(crate) fn words_of(
    alloc: Global,
    shelf: &Shelf,
    texts: &[&str],
) -> Result<Vec<String>, RowStop> {
    let mut words = Vec::new(alloc);
    for text in texts {
        words.push(word_of(alloc, shelf, text)?)?;
    }
    Ok(words)
}

fn word_of(alloc: Global, shelf: &Shelf, text: &str) -> Result<String, RowStop> {
    if text == "''" {
        return Ok(String::new(alloc));
    }
    match text.strip_prefix('$') {
        Some(name) => hex_text(alloc, shelf.bytes(name)?),
        None => Ok(text.replace(alloc, '~', " ")?),
    }
}

fn hex_text(alloc: Global, bytes: &[u8]) -> Result<String, RowStop> {
    let digits = Hex(bytes);
    Ok(format!(in alloc; "{digits}")?)
}

/// The value that a name has in a table.
pub(crate) fn named<T: Copy>(table: &[(&str, T)], name: &str) -> Result<T, RowStop> {
    for (other, value) in table {
        if *other == name {
            return Ok(*value);
        }
    }
    Err(RowStop::NoRow)
}

/// What stands before and after the first of these marks.
pub(crate) fn split_at_mark<'a>(text: &'a str, mark: char) -> Result<(&'a str, &'a str), RowStop> {
    match text.split_once(mark) {
        Some(halves) => Ok(halves),
        None => Err(RowStop::NoRow),
    }
}

/// A number below 2^32 in decimal digits.
pub(crate) fn decimal(text: &str) -> Result<u32, RowStop> {
    match u32::from_str_radix(text, 10) {
        Ok(number) => Ok(number),
        Err(_) => Err(RowStop::NoRow),
    }
}

/// A number below 2^32 in hexadecimal digits.
pub(crate) fn hexadecimal(text: &str) -> Result<u32, RowStop> {
    match u32::from_str_radix(text, 16) {
        Ok(number) => Ok(number),
        Err(_) => Err(RowStop::NoRow),
    }
}
