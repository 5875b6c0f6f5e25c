//! The tree of a run's memory, from that of an earlier state of it.
ghost use Rattle.std.specs.Prelude.{◌≡◌, ℕ, ◌<◌, ◌++◌, All, Contains, IfOk, OnOk};
ghost use Rattle.std.specs.Str.{bytes_eq};
ghost use Rattle.page_core.specs.Memories.{page_of};
ghost use Rattle.page_core.specs.Stored.{stored_pages};
ghost use Rattle.page_core.specs.declared.sizes.TheConstants.{PAGES};
ghost use Rattle.page_tree.specs.Grown.{AscendFrom};
ghost use Rattle.rv_step.specs.Machine.{full};
ghost use Rattle.flat_machine.specs.Following.{HoldsMemory, changed, changed_page};
ghost use Rattle.flat_machine.specs.Going.{flat_state};

use crate::flat::Flat;
use digest_core::Digester;
use page_core::Page;
use page_tree::{PageTree, Steps};
use std::alloc::{AllocError, Global};
use std::sync::ledger::{Blank, Ledger};

/// The tree of a run's memory, with the registers in the register page, from the tree of an earlier state, which may have
/// other bytes in these pages alone. It shares with the earlier tree what is the same. An AllocError is want of memory.
pub fn following_tree<D: Digester, L: Ledger>(
    alloc: Global,
    tree: &PageTree<D>,
    flat: &Flat,
    touched: &[u32],
    blank: Blank,
) -> Result<PageTree<D>, AllocError>
    requires ascending { AscendFrom 0 touched.now }
    requires others { (page : ℕ) → page < PAGES → ¬ Contains touched.now page →
        stored_pages tree.now page ≡ page_of (full (flat_state flat.now)) page }
    requires name { blank.name ≡ L.name }
    requires parts { blank.parts ≡ L.parts }
    requires shared { 0 < L.parts }
    ensures { IfOk result (λ next. HoldsMemory next (flat_state flat.now)) }
{
    let pages = changed_pages(alloc, tree, flat, touched)?;
    let mut next = tree.share()?;
    let mut steps = Steps::<L>::new(blank);
    next.update(&pages, &mut steps)?;
    Ok(next)
}

// Copies of those of these pages of a run's memory, with the registers, that a tree has otherwise.
fn changed_pages<D: Digester>(
    alloc: Global,
    tree: &PageTree<D>,
    flat: &Flat,
    pages: &[u32],
) -> Result<Vec<(u32, Page)>, AllocError>
    requires { All (λ page. page < PAGES) pages.now }
    ensures { IfOk result (λ list. list.items
        ≡ changed (stored_pages tree.now) (page_of (full (flat_state flat.now))) pages.now) }
{
    let mut list = Vec::new(alloc);
    for page in pages {
        push_changed(&mut list, tree, *page, flat.full_page(*page))?;
    }
    Ok(list)
}

// Adds a page, if a tree has other bytes under its number.
fn push_changed<D: Digester>(
    list: &mut Vec<(u32, Page)>,
    tree: &PageTree<D>,
    number: u32,
    page: Page,
) -> Result<(), AllocError>
    ensures { OnOk result (list.new.items
        ≡ list.old.items ++ changed_page number (stored_pages tree.now number) page) }
{
    if !has_bytes(tree, number, page.bytes()) {
        list.push((number, page))?;
    }
    Ok(())
}

// Whether a tree has these bytes under a number.
fn has_bytes<D: Digester>(tree: &PageTree<D>, number: u32, bytes: &[u8; 1024]) -> bool
    ensures { result ≡ bytes_eq (stored_pages tree.now number) bytes.now }
{
    match tree.page(number) {
        Some(page) => page.bytes()[..] == bytes[..],
        None => [0; 1024][..] == bytes[..],
    }
}
