ghost use Rattle.std.specs.Prelude.{◌≡◌, ◌+◌, ◌<◌, ◌≤◌, ◌++◌, [], option_map, IfOk, OnOk};
ghost use Rattle.page_core.specs.Stored.{IsStoredFrom, first_from, stored_at};
ghost use Rattle.page_tree.specs.Grown.{found_before, gathered};

use crate::steps::Steps;
use crate::tree::PageTree;
use digest_core::Digester;
use page_core::{Page, PageMap};
use std::alloc::{AllocError, Global};
use std::sync::ledger::{Blank, Ledger};

// The tree of the memory that a map stands for: the empty tree, updated by the map's pages 64 numbers at a time, so
// that no more pages than these are copied at once.
pub(crate) fn filled<D: Digester, L: Ledger>(
    alloc: Global,
    map: &PageMap,
    blank: Blank,
) -> Result<PageTree<D>, AllocError>
    requires name { blank.name ≡ L.name }
    requires parts { blank.parts ≡ L.parts }
    requires some { 0 < L.parts }
    ensures tree { IfOk result (λ tree. tree ≡ map.now) }
    ensures numbers { IsStoredFrom 0 map.now }
{
    let mut steps = Steps::<L>::new(blank);
    let mut next = next_number(map, 0);
    let mut tree = PageTree::<D>::empty(alloc)?;
    while let Some(number) = next {
        let first = number / 64 * 64;
        let pages = pages_from(alloc, map, first)?;
        tree.update(&pages, &mut steps)?;
        next = next_number(map, first + 64);
    }
    Ok(tree)
}

// The first number from this one on under which a page is stored.
fn next_number(map: &PageMap, from: u32) -> Option<u32>
    ensures number { result ≡ option_map (λ found. found.0) (first_from from map.now) }
    ensures stored { IsStoredFrom 0 map.now }
{
    match map.next_from(from) {
        Some((number, _)) => Some(number),
        None => None,
    }
}

// Copies of the stored pages of 64 numbers.
fn pages_from(alloc: Global, map: &PageMap, first: u32) -> Result<Vec<(u32, Page)>, AllocError>
    requires { first + 64 ≤ 262144 }
    ensures { IfOk result (λ pages. pages.items ≡ gathered (stored_at map.now) first 64) }
{
    let mut pages = Vec::new(alloc);
    for number in first..first + 64 {
        push_page(&mut pages, map, number)?;
    }
    Ok(pages)
}

// Adds a copy of the page with this number, if it is stored.
fn push_page(pages: &mut Vec<(u32, Page)>, map: &PageMap, number: u32) -> Result<(), AllocError>
    ensures { OnOk result (pages.new.items
        ≡ pages.old.items ++ found_before number (stored_at map.now number) []) }
{
    match map.page(number) {
        Some(page) => {
            pages.push((number, Page::of(page.bytes())))?;
            Ok(())
        }
        None => Ok(()),
    }
}
