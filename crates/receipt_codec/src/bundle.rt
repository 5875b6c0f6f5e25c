//! Reading a bundle.
ghost use Rattle.std.specs.Prelude.{◌≡◌, ◌≢◌, ◌++◌, ℕ, map, Err, IfOk};
ghost use Rattle.std.specs.Arc.{arc_value};
ghost use Rattle.std.specs.Int.{w16, to_le_bytes};
ghost use Rattle.std.specs.List.{flat_map};
ghost use Rattle.receipt_types.specs.Bundles as plain;
ghost use Rattle.receipt_types.specs.Limits.{EntryLimits};
ghost use Rattle.receipt_types.specs.Spelling.{seal_bytes, entry_bytes, Spells};
ghost use Rattle.receipt_codec.specs.Reading.{NoneSpelled, AreLinks, AreSealed, BeginsVersion};

use crate::seal::read_seal;
use crate::stop::ReadStop;
use byte_cursor::Cursor;
use receipt_types::{
    Bundle, Entry, EntryList, LinkList, MOST_ENTRIES, MOST_LINKS, MOST_SEALS, SealList,
};
use std::alloc::Global;
use std::sync::Arc;

/// Reads the bundle that these bytes spell, with nothing after it.
///
/// Version comes exactly where the bytes begin with `SEAL` and another number than 1, and Malformed exactly where they
/// don't and spell no bundle, unless memory is wanting. Memory is asked for as the bytes come.
pub fn read_bundle(alloc: Global, bytes: &[u8]) -> Result<Bundle, ReadStop>
    ensures spells { IfOk result (λ bundle. Spells bundle bytes.now) }
    ensures malformed { result ≡ Err ReadStop.Malformed → (B : plain.Bundle) →
        Spells B bytes.now → ⊥ }
    ensures not_version { result ≡ Err ReadStop.Malformed → (v : ℕ) →
        BeginsVersion v bytes.now → ⊥ }
    ensures version { (v : ℕ) → result ≡ Err (ReadStop.Version v) → BeginsVersion v bytes.now }
{
    let mut cursor = Cursor::new(bytes);
    match cursor.take(4) {
        Some(b"SEAL") => {}
        _ => return Err(ReadStop::Malformed),
    }
    match cursor.take_u16() {
        Some(1) => {}
        Some(version) => return Err(ReadStop::Version(version)),
        None => return Err(ReadStop::Malformed),
    }
    let Some(count) = cursor.take_u16() else {
        return Err(ReadStop::Malformed);
    };
    if count == 0 || u32::from(count) > MOST_ENTRIES {
        return Err(ReadStop::Malformed);
    }
    let mut entries = EntryList::new(alloc);
    for number in 0..count {
        let entry = read_entry(alloc, &mut cursor, number, count)?;
        entries.push(entry)?;
    }
    if cursor.left() != 0 {
        return Err(ReadStop::Malformed);
    }
    Ok(Bundle { entries })
}

// Reads the entry of this number, of so many. After an error the cursor stands anywhere.
fn read_entry(
    alloc: Global,
    cursor: &mut Cursor,
    number: u16,
    count: u16,
) -> Result<Entry, ReadStop>
    ensures limits { IfOk result (λ entry. EntryLimits number count entry) }
    ensures spelled { IfOk result (λ entry. cursor.old ≡ entry_bytes entry ++ cursor.new) }
    ensures malformed { result ≡ Err ReadStop.Malformed →
        NoneSpelled entry_bytes (EntryLimits number count) cursor.old }
    ensures no_version { (v : ℕ) → result ≢ Err (ReadStop.Version v) }
{
    let link_count = cursor.take_u32().ok_or(ReadStop::Malformed)?;
    let seal_count = cursor.take_u32().ok_or(ReadStop::Malformed)?;
    if link_count > MOST_LINKS || seal_count == 0 || seal_count > MOST_SEALS {
        return Err(ReadStop::Malformed);
    }
    let links = read_links(alloc, cursor, link_count, number, count)?;
    let seals = read_seals(alloc, cursor, seal_count)?;
    Ok(Entry { links, seals })
}

// Reads this many links of the entry of this number, of so many entries. After an error the cursor stands anywhere.
fn read_links(
    alloc: Global,
    cursor: &mut Cursor,
    many: u32,
    number: u16,
    count: u16,
) -> Result<LinkList, ReadStop>
    ensures links { IfOk result (λ links. AreLinks number count many links.items) }
    ensures spelled { IfOk result
        (λ links. cursor.old ≡ flat_map (to_le_bytes w16) links.items ++ cursor.new) }
    ensures malformed { result ≡ Err ReadStop.Malformed →
        NoneSpelled (flat_map (to_le_bytes w16)) (AreLinks number count many) cursor.old }
    ensures no_version { (v : ℕ) → result ≢ Err (ReadStop.Version v) }
{
    let mut links = LinkList::new(alloc);
    for _ in 0..many {
        let link = cursor.take_u16().ok_or(ReadStop::Malformed)?;
        if link <= number || link >= count {
            return Err(ReadStop::Malformed);
        }
        links.push(link)?;
    }
    Ok(links)
}

// Reads this many seals. After an error the cursor stands anywhere.
fn read_seals(alloc: Global, cursor: &mut Cursor, many: u32) -> Result<SealList, ReadStop>
    ensures seals { IfOk result
        (λ seals. AreSealed many (map (λ seal. arc_value seal) seals.items)) }
    ensures spelled { IfOk result
        (λ seals. cursor.old
        ≡ flat_map seal_bytes (map (λ seal. arc_value seal) seals.items) ++ cursor.new) }
    ensures malformed { result ≡ Err ReadStop.Malformed →
        NoneSpelled (flat_map seal_bytes) (AreSealed many) cursor.old }
    ensures no_version { (v : ℕ) → result ≢ Err (ReadStop.Version v) }
{
    let mut seals = SealList::new(alloc);
    for _ in 0..many {
        let seal = read_seal(alloc, cursor)?;
        seals.push(Arc::new(alloc, seal)?)?;
    }
    Ok(seals)
}
