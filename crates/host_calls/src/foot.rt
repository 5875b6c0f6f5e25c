ghost use Rattle.std.specs.Prelude.{◌≡◌, ◌+◌, ◌≤◌, ◌<◌, ◌∷◌, [], length, slice_get, Some, IsTrue, ◌↔◌};
ghost use Rattle.host_calls.specs.Foots.{below, with_data};
ghost use Rattle.page_core.specs.declared.sizes.TheConstants.{REGISTER_PAGE};

use arrayvec::ArrayVec;
use page_core::REGISTER_PAGE;
use std::marker::Model;

/// The pages that a step touches, at most six: the register page, then the code page unless the
/// fetch faults, then the pages of data, ascending, each page once. Contracts see the list.
///
/// Nothing here takes memory.
#[derive(Drop)]
pub struct Foot {
    pages: ArrayVec<u32, 6>,
}

impl Model for Foot {
    ghost use Rattle.std.specs.Prelude.{ℕ, ◌≤◌, List, length};

    ghost Value = { List ℕ };

    ghost view = { λ f. f.pages.items };

    ghost invariant = { λ f. length f.pages.items ≤ 6 };
}

// How many of these pages come before the first that is no less than a page.
fn count_below(pages: &[u32], page: u32) -> usize
    ensures value { result ≡ below page pages.now }
    ensures bound { result ≤ length pages.now }
{
    for (count, other) in pages.iter().enumerate() {
        if *other >= page {
            return count;
        }
    }
    pages.len()
}

// Whether a page stands in this place.
fn stands_at(pages: &[u32], at: usize, page: u32) -> bool
    ensures { IsTrue result ↔ (slice_get pages.now at ≡ Some page) }
{
    pages.get(at).copied() == Some(page)
}

impl Foot {
    /// The footprint of a step whose fetch faults.
    pub fn of_registers() -> Foot
        ensures { result ≡ REGISTER_PAGE ∷ [] }
    {
        let mut pages = ArrayVec::new();
        pages.push(REGISTER_PAGE);
        Foot { pages }
    }

    /// The footprint of a step that touches no data, by its code page.
    pub fn of_code(page: u32) -> Foot
        ensures { result ≡ REGISTER_PAGE ∷ page ∷ [] }
    {
        let mut pages = ArrayVec::new();
        pages.push(REGISTER_PAGE);
        pages.push(page);
        Foot { pages }
    }

    /// Adds a page of data, where the footprint has a code page and fewer than six pages.
    pub fn add(&mut self, page: u32)
        requires code { 2 ≤ length self.old }
        requires room { length self.old < 6 }
        ensures { self.new ≡ with_data page self.old }
    {
        let pages = self.pages.as_slice();
        if pages[1] == page {
            return;
        }
        let others = &pages[2..];
        let at = count_below(others, page);
        if !stands_at(others, at, page) {
            self.pages.insert(2 + at, page);
        }
    }

    /// The pages.
    pub fn pages(&self) -> &[u32]
        ensures value { result.now ≡ self.now }
        ensures bound { length self.now ≤ 6 }
    {
        self.pages.as_slice()
    }
}
