//! Writing trees, seals and bundles.
ghost use Rattle.std.specs.Prelude.{◌≡◌, ◌≤◌, ◌++◌, length, OnOk, OnErr, IfOk};
ghost use Rattle.part_tree.specs.Canonical.{IsCanonical};
ghost use Rattle.part_tree.specs.Views.{part};
ghost use Rattle.receipt_types.specs.Limits.{SealLimits, AllSealLimits, KeepsLimits};
ghost use Rattle.receipt_types.specs.Spelling.{tree_bytes, seal_bytes, entry_bytes, Spells};
ghost use Rattle.receipt_codec.specs.Reading.{AppendsFrontOf};
ghost use Rattle.receipt_types.specs.declared.sizes.TheConstants.{MOST_LINKS, MOST_SEALS};

use byte_cursor::{ByteList, Out};
use part_tree::PartTree;
use receipt_types::{Bundle, Entry, Seal};
use std::alloc::{AllocError, Global};

/// Appends the spelling of a canonical tree. An AllocError is want of memory, and then a front of the spelling is
/// appended.
pub fn write_tree(out: &mut Out, tree: &PartTree) -> Result<(), AllocError>
    requires { IsCanonical (part tree.now) }
    ensures ok { OnOk result (out.new ≡ out.old ++ tree_bytes (part tree.now)) }
    ensures err { OnErr result (AppendsFrontOf (tree_bytes (part tree.now)) out.old out.new) }
{
    put_node(out, tree)
}

// Appends the bytes of a node and what is below it.
fn put_node(out: &mut Out, tree: &PartTree) -> Result<(), AllocError>
    ensures ok { OnOk result (out.new ≡ out.old ++ tree_bytes (part tree.now)) }
    ensures err { OnErr result (AppendsFrontOf (tree_bytes (part tree.now)) out.old out.new) }
{
    match tree {
        PartTree::Pruned(digest) => {
            out.put_u8(0)?;
            out.put_all(digest.bytes())
        }
        PartTree::Branch(left, right) => {
            out.put_u8(1)?;
            put_node(out, left)?;
            put_node(out, right)
        }
        PartTree::Leaf(page) => {
            out.put_u8(2)?;
            out.put_all(page.bytes())
        }
    }
}

/// Appends the spelling of a seal that keeps its limits. An AllocError is want of memory, and then a front of the
/// spelling is appended.
pub fn write_seal(out: &mut Out, seal: &Seal) -> Result<(), AllocError>
    requires { SealLimits seal.now }
    ensures ok { OnOk result (out.new ≡ out.old ++ seal_bytes seal.now) }
    ensures err { OnErr result (AppendsFrontOf (seal_bytes seal.now) out.old out.new) }
{
    let words = seal.words.as_slice();
    out.put_u32(seal.pc)?;
    out.put_u32(seal.steps)?;
    out.put_u32(words.len() as u32)?;
    for word in words {
        out.put_u32(*word)?;
    }
    put_node(out, &seal.tree)
}

/// The bytes that spell a bundle that keeps the limits of a receipt. An AllocError is want of memory.
pub fn write_bundle(alloc: Global, bundle: &Bundle) -> Result<ByteList, AllocError>
    requires { KeepsLimits bundle.now }
    ensures { IfOk result (λ bytes. Spells bundle.now bytes.items) }
{
    let entries = bundle.entries.as_slice();
    let mut out = Out::new(alloc);
    out.put_all(b"SEAL")?;
    out.put_u16(1)?;
    out.put_u16(entries.len() as u16)?;
    for entry in entries {
        put_entry(&mut out, entry)?;
    }
    Ok(out.finish())
}

// Appends the bytes of an entry that keeps its limits.
fn put_entry(out: &mut Out, entry: &Entry) -> Result<(), AllocError>
    requires few_links { length entry.now.links ≤ MOST_LINKS }
    requires few_seals { length entry.now.seals ≤ MOST_SEALS }
    requires seals { AllSealLimits entry.now.seals }
    ensures { OnOk result (out.new ≡ out.old ++ entry_bytes entry.now) }
{
    let links = entry.links.as_slice();
    let seals = entry.seals.as_slice();
    out.put_u32(links.len() as u32)?;
    out.put_u32(seals.len() as u32)?;
    for link in links {
        out.put_u16(*link)?;
    }
    for seal in seals {
        write_seal(out, seal)?;
    }
    Ok(())
}
