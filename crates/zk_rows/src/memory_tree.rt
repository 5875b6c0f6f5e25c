//! Trees over memories.
ghost use Rattle.page_core.specs.declared.sizes.TheConstants.{PAGES};
ghost use Rattle.std.specs.Prelude.{◌≡◌, ◌<◌, IsTrue, map};
ghost use Rattle.part_tree.specs.Canonical.{IsCanonical};
ghost use Rattle.part_tree.specs.Views.{part};
ghost use Rattle.page_tree.specs.Grown.{AscendFrom};

use crate::audits::split_text;
use crate::lines::{Hex, Lines};
use crate::pages::{page_number, page_of, set_pages, stored_text};
use crate::shelf::Shelf;
use crate::stop::RowStop;
use crate::words::{decimal, split_at_mark};
use digest_core::{Digest, Digester};
use page_core::{PAGES, Page, PageMap};
use page_tree::{PageTree, Steps};
use part_tree::{MOST_PAGES, PageList, PartTree};
use std::alloc::{AllocError, Global};
use std::marker::Brand;
use std::sync::ledger::{Blank, Ledger};

/// Makes the tree of the memory that the settings among the words make, and adds its answer to each other word.
pub(crate) fn ask_tree<D: Digester>(
    alloc: Global,
    shelf: &Shelf,
    out: &mut Lines,
    words: &[&str],
) -> Result<(), RowStop> {
    let pages = memory(alloc, shelf, words)?;
    let tree = PageTree::<D>::from_map(alloc, &pages)?;
    for word in words {
        if !is_setting(word) {
            add_answer::<D>(alloc, shelf, out, &tree, word)?;
        }
    }
    Ok(())
}

// The memory that the settings among the words make.
fn memory(alloc: Global, shelf: &Shelf, words: &[&str]) -> Result<PageMap, RowStop> {
    let mut pages = PageMap::new(alloc);
    for word in words {
        if is_setting(word) {
            set_pages(shelf, &mut pages, word)?;
        }
    }
    Ok(pages)
}

fn is_setting(word: &str) -> bool {
    word.contains('=') && !word.starts_with("change") && !word.starts_with("update")
}

// `root`, `node:HEIGHT,INDEX`, `page:NUMBER`, `open:NUMBER,NUMBER...`, `change:NUMBER=NAME`,
// `update:NUMBER=NAME,NUMBER=NAME...`, `split:NAME`.
fn add_answer<D: Digester>(
    alloc: Global,
    shelf: &Shelf,
    out: &mut Lines,
    tree: &PageTree<D>,
    question: &str,
) -> Result<(), RowStop> {
    let answer = answer_of::<D>(alloc, shelf, tree, question)?;
    out.add(format_args!("{question} {answer}"))
}

fn answer_of<D: Digester>(
    alloc: Global,
    shelf: &Shelf,
    tree: &PageTree<D>,
    question: &str,
) -> Result<String, RowStop> {
    if question == "root" {
        return Ok(digest_text(alloc, &tree.root())?);
    }
    let (kind, text) = split_at_mark(question, ':')?;
    match kind {
        "node" => node_text::<D>(alloc, tree, text),
        "page" => page_text::<D>(alloc, tree, text),
        "open" => opened_text::<D>(alloc, tree, text),
        "change" => changed_text::<D>(alloc, shelf, tree, text),
        "update" => updated_text::<D>(alloc, shelf, tree, text),
        "split" => split_text::<D>(alloc, shelf, tree, text),
        _ => Err(RowStop::NoRow),
    }
}

fn digest_text(alloc: Global, digest: &Digest) -> Result<String, AllocError> {
    let digits = Hex(digest.bytes().as_slice());
    format!(in alloc; "{digits}")
}

fn node_text<D: Digester>(
    alloc: Global,
    tree: &PageTree<D>,
    text: &str,
) -> Result<String, RowStop> {
    let (height, index) = split_at_mark(text, ',')?;
    let (height, index) = (decimal(height)?, decimal(index)?);
    if height > 18 || index >= 1u32 << (18 - height) {
        return Err(RowStop::NoRow);
    }
    Ok(digest_text(alloc, &tree.node_at(height as u8, index))?)
}

fn page_text<D: Digester>(
    alloc: Global,
    tree: &PageTree<D>,
    text: &str,
) -> Result<String, RowStop> {
    Ok(stored_text(alloc, tree.page(page_number(text)?).is_some())?)
}

// Opens pages, and tells the pages that are open then, and whether the part tree is canonical and has the tree's root.
fn opened_text<D: Digester>(
    alloc: Global,
    tree: &PageTree<D>,
    text: &str,
) -> Result<String, RowStop> {
    let numbers = numbers_in(alloc, text)?;
    let numbers = numbers.as_slice();
    if numbers.is_empty() || numbers.len() > MOST_PAGES as usize || !do_ascend(0, numbers) {
        return Err(RowStop::NoRow);
    }
    part_text::<D>(alloc, tree.root(), &tree.open(numbers)?)
}

fn part_text<D: Digester>(alloc: Global, root: Digest, tree: &PartTree) -> Result<String, RowStop>
    requires { IsCanonical (part tree.now) }
{
    let has_root = tree.root::<D>() == root;
    let is_canonical = tree.is_canonical();
    let opened = tree.opened(alloc)?;
    let opened = opened.as_slice();
    Ok(format!(in alloc; "opens {opened:?}, same root: {has_root}, canonical: {is_canonical}")?)
}

// The numbers between commas.
fn numbers_in(alloc: Global, text: &str) -> Result<PageList, RowStop> {
    let mut numbers = PageList::new(alloc);
    for number in text.split(',') {
        numbers.push(decimal(number)?)?;
    }
    Ok(numbers)
}

// Whether page numbers ascend without repeats, from one on.
fn do_ascend(least: u32, numbers: &[u32]) -> bool
    ensures { IsTrue result → AscendFrom least numbers.now }
{
    match numbers.split_first() {
        None => true,
        Some((first, rest)) => { least <= *first && *first < PAGES && do_ascend(*first + 1, rest) }
    }
}

// Opens a page, writes a file in its place, and tells the root of the part tree then.
fn changed_text<D: Digester>(
    alloc: Global,
    shelf: &Shelf,
    tree: &PageTree<D>,
    text: &str,
) -> Result<String, RowStop> {
    let (number, name) = split_at_mark(text, '=')?;
    let page = page_of(shelf.bytes(name)?)?;
    Ok(digest_text(
        alloc,
        &changed_root::<D>(tree, page_number(number)?, &page)?,
    )?)
}

fn changed_root<D: Digester>(
    tree: &PageTree<D>,
    number: u32,
    page: &Page,
) -> Result<Digest, AllocError>
    requires { number < PAGES }
{
    let mut part = tree.open(&[number])?;
    if part.page(number).is_some() {
        part.write(number, page);
    }
    Ok(part.root::<D>())
}

// Puts files as pages into a tree that shares with this one, and tells its root, and the root of this one then.
fn updated_text<D: Digester>(
    alloc: Global,
    shelf: &Shelf,
    tree: &PageTree<D>,
    text: &str,
) -> Result<String, RowStop> {
    let pages = pages_in(alloc, shelf, text)?;
    let pages = pages.as_slice();
    if !pages_ascend(0, pages) {
        return Err(RowStop::NoRow);
    }
    let updated = updated_tree::<D, Brand>(tree, pages, Blank::new(1))?;
    let new = digest_text(alloc, &updated.root())?;
    let old = digest_text(alloc, &tree.root())?;
    Ok(format!(in alloc; "{new}, shared with {old}")?)
}

// The pages `NUMBER=NAME`, with commas between them.
fn pages_in(alloc: Global, shelf: &Shelf, text: &str) -> Result<Vec<(u32, Page)>, RowStop> {
    let mut pages = Vec::new(alloc);
    if text.is_empty() {
        return Ok(pages);
    }
    for word in text.split(',') {
        let (number, name) = split_at_mark(word, '=')?;
        pages.push((decimal(number)?, page_of(shelf.bytes(name)?)?))?;
    }
    Ok(pages)
}

// Whether the numbers of pages ascend without repeats, from one on.
fn pages_ascend(least: u32, pages: &[(u32, Page)]) -> bool
    ensures { IsTrue result → AscendFrom least (map (λ page. page.0) pages.now) }
{
    match pages.split_first() {
        None => true,
        Some((first, rest)) => {
            least <= first.0 && first.0 < PAGES && pages_ascend(first.0 + 1, rest)
        }
    }
}

// A tree that shares with this one, and then has these pages.
fn updated_tree<D: Digester, L: Ledger>(
    tree: &PageTree<D>,
    pages: &[(u32, Page)],
    blank: Blank,
) -> Result<PageTree<D>, AllocError>
    requires name { blank.name ≡ L.name }
    requires parts { blank.parts ≡ L.parts }
    requires some { 0 < L.parts }
    requires ascending { AscendFrom 0 (map (λ page. page.0) pages.now) }
{
    let mut steps = Steps::<L>::new(blank);
    let mut updated = tree.share()?;
    updated.update(pages, &mut steps)?;
    Ok(updated)
}
