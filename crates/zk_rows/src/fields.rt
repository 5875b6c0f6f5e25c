//! Numbers at the front of a file's bytes.

use crate::lines::{Hex, Lines};
use crate::shelf::Shelf;
use crate::stop::RowStop;
use crate::words::decimal;
use byte_cursor::Cursor;

/// Adds what a cursor takes of a file, field by field, and how many bytes are left after it.
pub(crate) fn take_fields(shelf: &Shelf, out: &mut Lines, words: &[&str]) -> Result<(), RowStop> {
    let [name, fields @ ..] = words else {
        return Err(RowStop::NoRow);
    };
    let mut cursor = Cursor::new(shelf.bytes(name)?);
    for field in fields {
        take_field(out, &mut cursor, field)?;
        add_left(out, &cursor)?;
    }
    Ok(())
}

fn add_left(out: &mut Lines, cursor: &Cursor) -> Result<(), RowStop> {
    let left = cursor.left();
    out.add(format_args!("left {left}"))
}

// `u8`, `u16`, `u32`, or so many bytes.
fn take_field(out: &mut Lines, cursor: &mut Cursor, field: &str) -> Result<(), RowStop> {
    match field {
        "u8" => add_number(out, cursor.take_u8().map(|number| number as u32)),
        "u16" => add_number(out, cursor.take_u16().map(|number| number as u32)),
        "u32" => add_number(out, cursor.take_u32()),
        count => add_bytes(out, cursor.take(decimal(count)? as usize)),
    }
}

fn add_number(out: &mut Lines, number: Option<u32>) -> Result<(), RowStop> {
    match number {
        Some(number) => out.add(format_args!("{number:x}")),
        None => out.add("short"),
    }
}

fn add_bytes(out: &mut Lines, bytes: Option<&[u8]>) -> Result<(), RowStop> {
    match bytes {
        Some(bytes) => out.add(Hex(bytes)),
        None => out.add("short"),
    }
}
