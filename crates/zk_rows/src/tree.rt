//! The opened tree of a seal, made by hand: it doesn't rest on the writer that the rows test.

use crate::shelf::Shelf;
use crate::stop::RowStop;
use crate::words::decimal;
use byte_cursor::Out;
use digest_core::{Digest, Digester, hash, node};
use std::alloc::{AllocError, Global};

/// Writes the tree that opens these pages, in rising order of their numbers, of a memory that is zero elsewhere: `4=CODE,5`
/// is page 4, which begins with the bytes of the file CODE, and page 5, of zeros.
pub(crate) fn put_tree<D: Digester>(
    alloc: Global,
    shelf: &Shelf,
    out: &mut Out,
    text: &str,
) -> Result<(), RowStop> {
    let zeros = zero_nodes::<D>(alloc)?;
    put_pages(shelf, out, zeros.as_slice(), text)
}

fn put_pages(shelf: &Shelf, out: &mut Out, zeros: &[Digest], text: &str) -> Result<(), RowStop> {
    let mut last = None;
    for page in text.split(',') {
        last = Some(put_next(shelf, out, zeros, last, page)?);
    }
    match last {
        Some(before) => Ok(put_right_sides(out, zeros, before, zeros.len())?),
        None => Ok(()),
    }
}

// Writes a page and what stands between the one before and it, and returns its number.
fn put_next(
    shelf: &Shelf,
    out: &mut Out,
    zeros: &[Digest],
    last: Option<u32>,
    page: &str,
) -> Result<u32, RowStop> {
    let (number, bytes) = page_in(shelf, page)?;
    let top = match last {
        Some(before) => fork(before, number),
        None => zeros.len(),
    };
    if let Some(before) = last {
        put_right_sides(out, zeros, before, top)?;
    }
    put_left_sides(out, zeros, number, top)?;
    put_page(out, bytes)?;
    Ok(number)
}

// The number of a page, and the bytes with which it begins: `4=CODE`, or `5`.
fn page_in<'a>(shelf: &'a Shelf, page: &str) -> Result<(u32, &'a [u8]), RowStop> {
    match page.split_once('=') {
        Some((number, name)) => Ok((decimal(number)?, shelf.bytes(name)?)),
        None => Ok((decimal(page)?, [].as_slice())),
    }
}

// The digests of the nodes below the root over zero pages, from height 0 up.
fn zero_nodes<D: Digester>(alloc: Global) -> Result<Vec<Digest>, AllocError> {
    let mut zeros = Vec::new(alloc);
    let mut zero = hash::<D>(&[0; 1024]);
    for _ in 0..18 {
        zeros.push(zero)?;
        zero = node::<D>(&zero, &zero);
    }
    Ok(zeros)
}

// The height of the two sides of which one has the one page and the other has the other.
fn fork(page: u32, other: u32) -> usize {
    31usize.saturating_sub((page ^ other).leading_zeros() as usize)
}

// The branches above a page below this height, each with the digest of its left side where the page is on its right.
fn put_left_sides(
    out: &mut Out,
    zeros: &[Digest],
    page: u32,
    top: usize,
) -> Result<(), AllocError> {
    for (height, zero) in zeros.iter().enumerate().rev() {
        if height < top {
            out.put_u8(1)?;
            if is_right(page, height) {
                put_pruned(out, zero)?;
            }
        }
    }
    Ok(())
}

// The digests of the right sides of the branches above a page, below this height.
fn put_right_sides(
    out: &mut Out,
    zeros: &[Digest],
    page: u32,
    top: usize,
) -> Result<(), AllocError> {
    for (height, zero) in zeros.iter().enumerate() {
        if height < top && !is_right(page, height) {
            put_pruned(out, zero)?;
        }
    }
    Ok(())
}

fn is_right(page: u32, height: usize) -> bool {
    page.wrapping_shr((height % 32) as u32) % 2 == 1
}

fn put_pruned(out: &mut Out, digest: &Digest) -> Result<(), AllocError> {
    out.put_u8(0)?;
    out.put_all(digest.bytes().as_slice())
}

fn put_page(out: &mut Out, bytes: &[u8]) -> Result<(), AllocError> {
    out.put_u8(2)?;
    out.put_all(bytes)?;
    for _ in bytes.len()..1024 {
        out.put_u8(0)?;
    }
    Ok(())
}
