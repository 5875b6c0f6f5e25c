//! Receipts, seals and trees as their bytes are read.
ghost use Rattle.part_tree.specs.Canonical.{IsCanonical};
ghost use Rattle.part_tree.specs.Views.{part};
ghost use Rattle.receipt_types.specs.Limits.{KeepsLimits};

use crate::lines::Lines;
use crate::shelf::Shelf;
use crate::stop::RowStop;
use byte_cursor::{Cursor, Out};
use check_core::{Checked, Report};
use digest_core::ShaDigester;
use inspect_json::report_text;
use part_tree::PartTree;
use receipt_codec::{
    ReadStop, read_bundle, read_seal, read_tree, write_bundle, write_seal, write_tree,
};
use receipt_types::{Bundle, Entry, Seal};
use std::alloc::Global;
use std::str;

/// As what a file is read.
#[derive(Clone, Copy)]
pub(crate) enum Reading {
    /// A receipt: how many entries its bundle has, and whether it is written as it was read.
    Bundle,
    /// A receipt: how many links and seals each entry has.
    Entries,
    /// A receipt: the JSON text of its report under the digest of its own first state.
    Report,
    /// A receipt that is cut short, at each length.
    Prefixes,
    /// The seal that it begins with.
    Seal,
    /// The tree that it begins with.
    Tree,
}

/// Adds what the file of this name is read as, or why it isn't read.
pub(crate) fn read_file(
    alloc: Global,
    shelf: &Shelf,
    out: &mut Lines,
    reading: Reading,
    words: &[&str],
) -> Result<(), RowStop> {
    let [name] = words else {
        return Err(RowStop::NoRow);
    };
    let bytes = shelf.bytes(name)?;
    match reading {
        Reading::Bundle => read_whole(alloc, out, bytes),
        Reading::Entries => add_entries(alloc, out, bytes),
        Reading::Report => add_report(alloc, out, bytes),
        Reading::Prefixes => read_prefixes(alloc, out, bytes),
        Reading::Seal => read_seal_at(alloc, out, bytes),
        Reading::Tree => read_tree_at(alloc, out, bytes),
    }
}

// Adds how many entries a receipt's bundle has and whether it is written as it was read, or why it isn't read.
fn read_whole(alloc: Global, out: &mut Lines, bytes: &[u8]) -> Result<(), RowStop> {
    match read_bundle(alloc, bytes) {
        Ok(bundle) => add_bundle(alloc, out, bytes, &bundle),
        Err(stop) => out.add(format_args!("{stop:?}")),
    }
}

fn add_bundle(alloc: Global, out: &mut Lines, bytes: &[u8], bundle: &Bundle) -> Result<(), RowStop>
    requires { KeepsLimits bundle.now }
{
    let written = write_bundle(alloc, bundle)?;
    let (count, same) = (bundle.entries.len(), written.as_slice() == bytes);
    out.add(format_args!("read {count} entries, written the same: {same}"))
}

// Adds how many links and seals each entry of a receipt has.
fn add_entries(alloc: Global, out: &mut Lines, bytes: &[u8]) -> Result<(), RowStop> {
    let Ok(bundle) = read_bundle(alloc, bytes) else {
        return Err(RowStop::NoRow);
    };
    for entry in bundle.entries.as_slice() {
        add_entry(out, entry)?;
    }
    Ok(())
}

fn add_entry(out: &mut Lines, entry: &Entry) -> Result<(), RowStop> {
    let (links, seals) = (entry.links.len(), entry.seals.len());
    out.add(format_args!("links {links} seals {seals}"))
}

// Adds the JSON text of a receipt's report under the digest of its own first state.
fn add_report(alloc: Global, out: &mut Lines, bytes: &[u8]) -> Result<(), RowStop> {
    let Ok(bundle) = read_bundle(alloc, bytes) else {
        return Err(RowStop::NoRow);
    };
    match Checked::<ShaDigester>::new(alloc, bundle) {
        Ok(checked) => add_json(alloc, out, checked.report()),
        Err(_) => Err(RowStop::NoRow),
    }
}

fn add_json(alloc: Global, out: &mut Lines, report: &Report) -> Result<(), RowStop> {
    let text = report_text(alloc, report)?;
    match str::from_utf8(text.as_slice()) {
        Ok(line) => out.add(line.trim_end()),
        Err(_) => Err(RowStop::NoRow),
    }
}

// Adds how the bytes of a receipt that are cut short, at each length, are read.
fn read_prefixes(alloc: Global, out: &mut Lines, bytes: &[u8]) -> Result<(), RowStop> {
    let (mut read, mut malformed, mut other) = (0u32, 0u32, 0u32);
    for length in 0..bytes.len() {
        match read_bundle(alloc, &bytes[..length]) {
            Ok(_) => read = read.saturating_add(1),
            Err(ReadStop::Malformed) => malformed = malformed.saturating_add(1),
            Err(ReadStop::Version(_)) => other = other.saturating_add(1),
            Err(ReadStop::Memory) => return Err(RowStop::Memory),
        }
    }
    out.add(format_args!("read {read}, malformed {malformed}, of another version {other}"))
}

// Adds the open pages of the tree that bytes begin with, and how many bytes follow it, or why none is read.
fn read_tree_at(alloc: Global, out: &mut Lines, bytes: &[u8]) -> Result<(), RowStop> {
    let mut cursor = Cursor::new(bytes);
    let answer = read_tree(alloc, &mut cursor);
    let left = cursor.left();
    match answer {
        Ok(tree) => {
            add_tree(alloc, out, &tree)?;
            let mut written = Out::new(alloc);
            write_tree(&mut written, &tree)?;
            add_written(out, bytes, written.finish().as_slice(), left)
        }
        Err(stop) => out.add(format_args!("{stop:?}, {left} left")),
    }
}

fn add_tree(alloc: Global, out: &mut Lines, tree: &PartTree) -> Result<(), RowStop>
    requires { IsCanonical (part tree.now) }
{
    let opened = tree.opened(alloc)?;
    let pages = opened.as_slice();
    out.add(format_args!("tree of pages {pages:?}"))
}

// Adds the seal that bytes begin with, and how many bytes follow it, or why none is read.
fn read_seal_at(alloc: Global, out: &mut Lines, bytes: &[u8]) -> Result<(), RowStop> {
    let mut cursor = Cursor::new(bytes);
    let answer = read_seal(alloc, &mut cursor);
    let left = cursor.left();
    match answer {
        Ok(seal) => {
            add_seal(out, &seal)?;
            let mut written = Out::new(alloc);
            write_seal(&mut written, &seal)?;
            add_written(out, bytes, written.finish().as_slice(), left)
        }
        Err(stop) => out.add(format_args!("{stop:?}, {left} left")),
    }
}

fn add_seal(out: &mut Lines, seal: &Seal) -> Result<(), RowStop> {
    let (pc, steps, words) = (seal.pc, seal.steps, seal.words.as_slice());
    out.add(format_args!("seal from {pc:08x} of {steps} steps, words {words:?}"))
}

// Adds how many bytes are left, and whether what was read from the front is written the same.
fn add_written(out: &mut Lines, bytes: &[u8], written: &[u8], left: usize) -> Result<(), RowStop> {
    let same = bytes.get(..written.len()) == Some(written);
    out.add(format_args!("{left} left, written the same: {same}"))
}
