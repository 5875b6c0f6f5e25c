//! Bytes that are put together from pieces.
ghost use Rattle.std.specs.Prelude.{◌<◌, IfOk};

use crate::elf::elf_of;
use crate::shelf::Shelf;
use crate::stop::RowStop;
use crate::tree::put_tree;
use crate::words::{decimal, hexadecimal, split_at_mark};
use byte_cursor::{ByteList, Out, WordList};
use digest_core::{ShaDigester, WeakDigester, hash};
use guest_gen::{SIZE_MAX, generate};
use outside::{DirDesk, read_all};
use std::alloc::Global;
use std::rt::Files;

/// The bytes of these pieces, one after the other.
pub(crate) fn bytes_of<R: Files + AllocGlobal>(
    rt: &R,
    shelf: &Shelf,
    pieces: &[&str],
) -> Result<ByteList, RowStop> {
    let mut out = Out::new(rt.alloc());
    put_pieces(rt, shelf, &mut out, pieces)?;
    Ok(out.finish())
}

fn put_pieces<R: Files + AllocGlobal>(
    rt: &R,
    shelf: &Shelf,
    out: &mut Out,
    pieces: &[&str],
) -> Result<(), RowStop> {
    for piece in pieces {
        put_piece(rt, shelf, out, piece)?;
    }
    Ok(())
}

fn put_piece<R: Files + AllocGlobal>(
    rt: &R,
    shelf: &Shelf,
    out: &mut Out,
    piece: &str,
) -> Result<(), RowStop> {
    let Some((kind, text)) = piece.split_once(':') else {
        return put_plain(shelf, out, piece);
    };
    if kind == "data" {
        return put_data(rt, out, text);
    }
    put_made(rt.alloc(), shelf, out, kind, text)
}

// A file outside.
fn put_data<R: Files + AllocGlobal>(rt: &R, out: &mut Out, name: &str) -> Result<(), RowStop> {
    match read_all(rt.alloc(), &mut DirDesk::new(rt), name, 1_073_741_824) {
        Ok(file) => Ok(out.put_all(file.as_slice())?),
        Err(_) => Err(RowStop::NoRow),
    }
}

// A piece that is made of a file, or of numbers.
fn put_made(
    alloc: Global,
    shelf: &Shelf,
    out: &mut Out,
    kind: &str,
    text: &str,
) -> Result<(), RowStop> {
    match kind {
        "sha" => put_sha(out, shelf.bytes(text)?),
        "elf" => put_elf(alloc, out, shelf.bytes(text)?),
        "guest" => put_guest(alloc, out, text),
        "guest-words" => put_guest_words(alloc, out, text),
        "tree" => put_tree::<ShaDigester>(alloc, shelf, out, text),
        "weaktree" => put_tree::<WeakDigester>(alloc, shelf, out, text),
        _ => Err(RowStop::NoRow),
    }
}

fn put_sha(out: &mut Out, bytes: &[u8]) -> Result<(), RowStop> {
    let digest = hash::<ShaDigester>(bytes);
    Ok(out.put_all(digest.bytes().as_slice())?)
}

fn put_elf(alloc: Global, out: &mut Out, code: &[u8]) -> Result<(), RowStop> {
    let file = elf_of(alloc, code)?;
    Ok(out.put_all(file.as_slice())?)
}

// The ELF file of the generator's guest that `NUMBER,SIZE` names.
fn put_guest(alloc: Global, out: &mut Out, text: &str) -> Result<(), RowStop> {
    let (file, _) = generated(alloc, text)?;
    Ok(out.put_all(file.as_slice())?)
}

// Its input.
fn put_guest_words(alloc: Global, out: &mut Out, text: &str) -> Result<(), RowStop> {
    let (_, words) = generated(alloc, text)?;
    for word in words.as_slice() {
        out.put_u32(*word)?;
    }
    Ok(())
}

fn generated(alloc: Global, text: &str) -> Result<(ByteList, WordList), RowStop> {
    let (number, size) = split_at_mark(text, ',')?;
    let (number, size) = (decimal(number)?, decimal(size)?);
    if size < 1 || size > SIZE_MAX {
        return Err(RowStop::NoRow);
    }
    Ok(generate(alloc, u64::from(number), size)?)
}

// A file, a part of one, zero bytes, bytes as they stand, a half word or a word.
fn put_plain(shelf: &Shelf, out: &mut Out, piece: &str) -> Result<(), RowStop> {
    if let Some(name) = piece.strip_prefix('$') {
        return Ok(out.put_all(part(shelf, name)?)?);
    }
    if let Some(count) = piece.strip_prefix('z') {
        return put_zeros(out, decimal(count)?);
    }
    if let Some(half) = piece.strip_prefix('h') {
        return put_half(out, hexadecimal(half)?);
    }
    if let Some(digits) = piece.strip_prefix('x') {
        return put_hex(out, digits);
    }
    Ok(out.put_u32(hexadecimal(piece)?)?)
}

fn put_zeros(out: &mut Out, count: u32) -> Result<(), RowStop> {
    for _ in 0..count {
        out.put_u8(0)?;
    }
    Ok(())
}

// The low two bytes of a number.
fn put_half(out: &mut Out, number: u32) -> Result<(), RowStop> {
    Ok(out.put_all(&number.to_le_bytes()[..2])?)
}

// `NAME`, or `NAME@FROM..TO`.
fn part<'a>(shelf: &'a Shelf, text: &str) -> Result<&'a [u8], RowStop> {
    match text.split_once('@') {
        Some((name, range)) => within(shelf.bytes(name)?, range),
        None => shelf.bytes(text),
    }
}

// The bytes from one place up to another: `FROM..TO`.
fn within<'a>(bytes: &'a [u8], range: &str) -> Result<&'a [u8], RowStop> {
    let Some((from, to)) = range.split_once("..") else {
        return Err(RowStop::NoRow);
    };
    let range = decimal(from)? as usize..decimal(to)? as usize;
    match bytes.get(range) {
        Some(bytes) => Ok(bytes),
        None => Err(RowStop::NoRow),
    }
}

// A hexadecimal digit.
fn digit(byte: u8) -> Result<u8, RowStop>
    ensures { IfOk result (λ digit. digit < 16) }
{
    match byte {
        b'0'..=b'9' => Ok(byte - b'0'),
        b'a'..=b'f' => Ok(byte - b'a' + 10),
        _ => Err(RowStop::NoRow),
    }
}

fn put_hex(out: &mut Out, digits: &str) -> Result<(), RowStop> {
    for pair in digits.as_bytes().chunks(2) {
        put_pair(out, pair)?;
    }
    Ok(())
}

// The byte of two digits.
fn put_pair(out: &mut Out, pair: &[u8]) -> Result<(), RowStop> {
    let [high, low] = pair else {
        return Err(RowStop::NoRow);
    };
    Ok(out.put_u8(digit(*high)? * 16 + digit(*low)?)?)
}
