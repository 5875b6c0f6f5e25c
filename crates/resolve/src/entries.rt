//! The entries of a bundle that is put together.
ghost use Rattle.std.specs.Prelude.{◌≡◌, ◌+◌, ◌<◌, ◌≤◌, ◌++◌, length, map, All, IfOk, OnOk};
ghost use Rattle.std.specs.Arc.{arc_value};
ghost use Rattle.receipt_types.specs.Limits.{KeepsLimits};
ghost use Rattle.resolve.specs.Bundling as plain;
ghost use Rattle.receipt_types.specs.declared.sizes.TheConstants.{MOST_ENTRIES};

use digest_core::Digester;
use lift_join::Joined;
use receipt_types::{Bundle, Entry, EntryList, LinkList, SealList};
use std::alloc::{AllocError, Global};
use std::sync::Arc;

// Entry 0: the proved seals, and for each call the number of its entry.
pub(crate) fn first_entry<D: Digester>(
    alloc: Global,
    joined: &Joined<D>,
    numbers: &[usize],
) -> Result<Entry, AllocError>
    requires { All (λ number. number < 65536) numbers.now }
    ensures { IfOk result
        (λ entry. entry ≡ record { links = numbers.now; seals = joined.now.seals }) }
{
    let mut links = LinkList::new(alloc);
    for number in numbers {
        links.push(*number as u16)?;
    }
    Ok(Entry {
        links,
        seals: copied(alloc, joined.seals())?,
    })
}

// The same seals, held once more.
fn copied(alloc: Global, seals: &SealList) -> Result<SealList, AllocError>
    ensures { IfOk result
        (λ copies. map (λ seal. arc_value seal) copies.items
        ≡ map (λ seal. arc_value seal) seals.now.items) }
{
    let mut copies = SealList::new(alloc);
    for seal in seals.as_slice() {
        copies.push(Arc::clone(seal)?)?;
    }
    Ok(copies)
}

// Appends a bundle's entries, with their links raised by the number of its first entry here.
pub(crate) fn add_bundle(
    alloc: Global,
    entries: &mut EntryList,
    bundle: &Bundle,
) -> Result<(), AllocError>
    requires few { length entries.old.items + length bundle.now ≤ MOST_ENTRIES }
    requires limits { KeepsLimits bundle.now }
    ensures { OnOk result
        (entries.new.items
        ≡ entries.old.items ++ map (plain.raised_entry (length entries.old.items)) bundle.now) }
{
    let first = entries.len() as u16;
    for entry in bundle.entries.as_slice() {
        entries.push(raised(alloc, first, entry)?)?;
    }
    Ok(())
}

// An entry with its links raised.
fn raised(alloc: Global, first: u16, entry: &Entry) -> Result<Entry, AllocError>
    requires { All (λ link. first + link < 65536) entry.now.links }
    ensures { IfOk result (λ raised. raised ≡ plain.raised_entry first entry.now) }
{
    Ok(Entry {
        links: raised_links(alloc, first, entry.links.as_slice())?,
        seals: copied(alloc, &entry.seals)?,
    })
}

// Links, each raised.
pub(crate) fn raised_links(alloc: Global, first: u16, links: &[u16]) -> Result<LinkList, AllocError>
    requires { All (λ link. first + link < 65536) links.now }
    ensures { IfOk result (λ raised. raised.items ≡ map (λ link. first + link) links.now) }
{
    let mut raised = LinkList::new(alloc);
    for link in links {
        raised.push(first + *link)?;
    }
    Ok(raised)
}
