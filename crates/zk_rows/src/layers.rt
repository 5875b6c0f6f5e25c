//! The rows of the lower layers.

use crate::audits::add_place;
use crate::calls::{grow_foot, meter_steps, read_registers};
use crate::digests::add_digest;
use crate::fields::take_fields;
use crate::files::{desk_calls, sink_puts};
use crate::images::load_file;
use crate::isa::{compare, compute, decode_word};
use crate::lines::Lines;
use crate::machine::{step_in, step_often, step_once};
use crate::measures::{add_root, hash_pages};
use crate::memory_tree::ask_tree;
use crate::pages::ask_pages;
use crate::receipts::{Reading, read_file};
use crate::runs::{add_cuts, count_cuts, flat_calls};
use crate::shelf::Shelf;
use crate::stop::RowStop;
use crate::words::named;
use digest_core::{Digester, ShaDigester, WeakDigester};
use std::alloc::Global;

// A row of the step or of a layer above it.
#[derive(Clone, Copy)]
enum Row {
    Step,
    Steps,
    Within,
    Desk,
    Sink,
    Read(Reading),
    Load,
    Flat,
    Cuts,
    CountCuts,
    Root,
    HashPages,
    Low(LowRow),
}

// A row of a layer below the step.
#[derive(Clone, Copy)]
enum LowRow {
    Decode,
    Alu,
    Taken,
    Call,
    Foot,
    Meter,
    Take,
    Pages,
    Sha,
    Weak,
}

// The rows by their first words.
static ROWS: [(&str, Row); 27] = [
    ("step", Row::Step),
    ("steps", Row::Steps),
    ("within", Row::Within),
    ("desk", Row::Desk),
    ("sink", Row::Sink),
    ("read", Row::Read(Reading::Bundle)),
    ("entries", Row::Read(Reading::Entries)),
    ("inspect", Row::Read(Reading::Report)),
    ("prefixes", Row::Read(Reading::Prefixes)),
    ("read-seal", Row::Read(Reading::Seal)),
    ("read-tree", Row::Read(Reading::Tree)),
    ("load", Row::Load),
    ("flat", Row::Flat),
    ("cuts", Row::Cuts),
    ("count-cuts", Row::CountCuts),
    ("root", Row::Root),
    ("hash-pages", Row::HashPages),
    ("decode", Row::Low(LowRow::Decode)),
    ("alu", Row::Low(LowRow::Alu)),
    ("taken", Row::Low(LowRow::Taken)),
    ("call", Row::Low(LowRow::Call)),
    ("foot", Row::Low(LowRow::Foot)),
    ("meter", Row::Low(LowRow::Meter)),
    ("take", Row::Low(LowRow::Take)),
    ("pages", Row::Low(LowRow::Pages)),
    ("sha", Row::Low(LowRow::Sha)),
    ("weak", Row::Low(LowRow::Weak)),
];

/// Does what the words say of a lower layer, after the first word of their row.
pub(crate) fn layer_row(
    alloc: Global,
    shelf: &Shelf,
    out: &mut Lines,
    first: &str,
    words: &[&str],
) -> Result<(), RowStop> {
    match named(&ROWS, first)? {
        Row::Step => step_once(alloc, shelf, out, words),
        Row::Steps => step_often(alloc, shelf, out, words),
        Row::Within => step_in(alloc, shelf, out, words),
        Row::Desk => desk_calls(alloc, shelf, out, words),
        Row::Sink => sink_puts(alloc, out, words),
        Row::Read(reading) => read_file(alloc, shelf, out, reading, words),
        Row::Load => load_file(alloc, shelf, out, words),
        Row::Flat => flat_calls(alloc, shelf, out, words),
        Row::Cuts => add_cuts(alloc, shelf, out, words),
        Row::CountCuts => count_cuts(alloc, shelf, out, words),
        Row::Root => add_root(alloc, out, words),
        Row::HashPages => hash_pages(alloc, out, words),
        Row::Low(row) => low_row(alloc, shelf, out, row, words),
    }
}

fn low_row(
    alloc: Global,
    shelf: &Shelf,
    out: &mut Lines,
    row: LowRow,
    words: &[&str],
) -> Result<(), RowStop> {
    match row {
        LowRow::Decode => decode_word(out, words),
        LowRow::Alu => compute(out, words),
        LowRow::Taken => compare(out, words),
        LowRow::Call => read_registers(out, words),
        LowRow::Foot => grow_foot(out, words),
        LowRow::Meter => meter_steps(alloc, out, words),
        LowRow::Take => take_fields(shelf, out, words),
        LowRow::Pages => ask_pages(alloc, shelf, out, words),
        LowRow::Sha => digest_row::<ShaDigester>(alloc, shelf, out, words),
        LowRow::Weak => digest_row::<WeakDigester>(alloc, shelf, out, words),
    }
}

// A tree, the place of an audit, or a digest.
fn digest_row<D: Digester>(
    alloc: Global,
    shelf: &Shelf,
    out: &mut Lines,
    words: &[&str],
) -> Result<(), RowStop> {
    let Some((first, words)) = words.split_first() else {
        return Err(RowStop::NoRow);
    };
    match *first {
        "tree" => ask_tree::<D>(alloc, shelf, out, words),
        "audit-place" => add_place::<D>(alloc, shelf, out, words),
        first => add_digest::<D>(alloc, shelf, out, first, words),
    }
}
