//! What is measured: trees over many pages, their hashing, and how long a row takes.
ghost use Rattle.page_core.specs.declared.sizes.TheConstants.{PAGES};
ghost use Rattle.std.specs.Prelude.{◌<◌, IfOk};

use crate::lines::Lines;
use crate::stop::RowStop;
use crate::words::decimal;
use digest_core::{ShaDigester, hash};
use page_core::{PAGES, Page, PageMap};
use page_tree::PageTree;
use std::alloc::Global;
use std::time::{Clock, Instant};

// The number of a page of such a memory: the pages stand so many apart.
fn page_at(number: u32, step: u32) -> Result<u32, RowStop>
    ensures { IfOk result (λ page. page < PAGES) }
{
    match number.checked_mul(step) {
        Some(page) if page < PAGES => Ok(page),
        _ => Err(RowStop::NoRow),
    }
}

// How many pages a memory has, and how many each is after the one before.
fn counts_of(words: &[&str]) -> Result<(u32, u32), RowStop> {
    let [count, step] = words else {
        return Err(RowStop::NoRow);
    };
    Ok((decimal(count)?, decimal(step)?))
}

// A memory with so many stored pages, each so many after the one before.
fn memory(alloc: Global, count: u32, step: u32) -> Result<PageMap, RowStop> {
    let mut map = PageMap::new(alloc);
    for number in 0..count {
        put_page(&mut map, number, step)?;
    }
    Ok(map)
}

fn put_page(map: &mut PageMap, number: u32, step: u32) -> Result<(), RowStop> {
    let content = Page::of(&[(number % 251) as u8; 1024]);
    Ok(map.put_page(page_at(number, step)?, &content)?)
}

/// Adds the root of the tree of a memory that has so many stored pages, each so many after the one before.
pub(crate) fn add_root(alloc: Global, out: &mut Lines, words: &[&str]) -> Result<(), RowStop> {
    let (count, step) = counts_of(words)?;
    let map = memory(alloc, count, step)?;
    let root = PageTree::<ShaDigester>::from_map(alloc, &map)?.root();
    out.add(format_args!("{root}"))
}

/// Hashes the stored pages of the same memory alone.
pub(crate) fn hash_pages(alloc: Global, out: &mut Lines, words: &[&str]) -> Result<(), RowStop> {
    let (count, step) = counts_of(words)?;
    let map = memory(alloc, count, step)?;
    for number in 0..count {
        if let Some(page) = map.page(page_at(number, step)?) {
            let _digest = hash::<ShaDigester>(page.bytes());
        }
    }
    out.add(format_args!("{count} pages"))
}

/// Where the clock stands.
pub(crate) fn now(clock: &impl Clock) -> Result<Instant, RowStop> {
    match Instant::now(clock) {
        Ok(now) => Ok(now),
        Err(_) => Err(RowStop::Clock),
    }
}

/// Adds how long it is since then, in microseconds.
pub(crate) fn add_since(
    clock: &impl Clock,
    out: &mut Lines,
    start: Instant,
) -> Result<(), RowStop> {
    let took = now(clock)?.duration_since(start).as_micros();
    out.add(format_args!("took {took} us"))
}
