ghost use Rattle.std.specs.Prelude.{◌≡◌, ℕ, None, IfOk, OnOk, option_map};
ghost use Rattle.page_core.specs.Pages.{IsPage};
ghost use Rattle.page_core.specs.Stored.{stored_at, memory_of};
ghost use Rattle.rv_step.specs.Opened.{page_in};
ghost use Rattle.flat_machine.specs.Layers.{layer_page, layered_pages, memory_in};

use page_core::{PAGES, Page, PageMap};
use rv_step::{Bus, OpenPages};
use std::alloc::{AllocError, Global};
use std::marker::Model;

// A whole memory as a bus: every page is open. Pages that are to be written are in a table, by their numbers, and are
// ready; the others are those of a map, or zero. Contracts see both layers.
#[derive(Drop)]
pub(crate) struct FlatMemory {
    above: OpenPages,
    below: PageMap,
    alloc: Global,
}

impl Model for FlatMemory {
    ghost use Rattle.flat_machine.specs.Layers.{Layers};

    ghost Value = { Layers };

    ghost view = { λ m. record { above = m.above; below = m.below } };
}

impl FlatMemory {
    // The memory of a map. It takes no memory.
    pub(crate) fn new(alloc: Global, below: PageMap) -> FlatMemory
        ensures { (a : ℕ) → memory_in result a ≡ memory_of below a }
    {
        FlatMemory {
            above: OpenPages::new(alloc),
            below,
            alloc,
        }
    }

    // The memory of a map, whose pages are copied. An AllocError is want of memory.
    pub(crate) fn copy_of(alloc: Global, map: &PageMap) -> Result<FlatMemory, AllocError>
        ensures { IfOk result (λ memory. (a : ℕ) → memory_in memory a ≡ memory_of map.now a) }
    {
        let mut above = OpenPages::new(alloc);
        copy_pages(&mut above, map)?;
        Ok(FlatMemory {
            above,
            below: PageMap::new(alloc),
            alloc,
        })
    }

    // The page with this number; None exactly where it is in neither layer, and zero.
    fn page(&self, number: u32) -> Option<&Page>
        ensures { option_map (λ page. page.now) result ≡ layer_page self.now number }
    {
        match self.above.page(number) {
            Some(page) => Some(page),
            None => self.below.page(number),
        }
    }

    // The bytes of the page with this number.
    pub(crate) fn bytes_of(&self, number: u32) -> &[u8; 1024]
        ensures value { result.now ≡ layered_pages self.now number }
        ensures page { IsPage result.now }
    {
        match self.page(number) {
            Some(page) => page.bytes(),
            None => &[0; 1024],
        }
    }

    // Copies all pages of the map into the table, so that none is searched for in the map from then on. Whether it could
    // or not, no byte changes.
    pub(crate) fn lift_pages(&mut self) -> Result<(), AllocError>
        ensures same_bytes { memory_in self.new ≡ memory_in self.old }
        ensures lifted { OnOk result ((n : ℕ) → stored_at self.new.below n ≡ None) }
    {
        copy_pages(&mut self.above, &self.below)?;
        self.below = PageMap::new(self.alloc);
        Ok(())
    }
}

// Copies the pages of a map that aren't in a table into it. Whether it could or not, the page that one of the two layers
// has under a number is the same.
fn copy_pages(above: &mut OpenPages, below: &PageMap) -> Result<(), AllocError>
    ensures same { (n : ℕ) → layer_page (record { above = above.new; below = below.now }) n
        ≡ layer_page (record { above = above.old; below = below.now }) n }
    ensures copied { OnOk result ((n : ℕ) →
        page_in above.new n ≡ layer_page (record { above = above.old; below = below.now }) n) }
{
    let mut least = 0;
    while let Some((number, page)) = below.next_from(least) {
        if !above.is_open(number) {
            above.open(number, page)?;
        }
        least = number + 1;
    }
    Ok(())
}

impl Bus for FlatMemory {
    ghost use Rattle.std.specs.Prelude.{is_some, ltb};
    ghost use Rattle.rv_step.specs.Opened.{page_in};
    ghost use Rattle.page_core.specs.declared.sizes.TheConstants.{PAGES};
    ghost use Rattle.flat_machine.specs.Layers.{memory_in};

    ghost opens = { λ m page. ltb page PAGES };

    ghost byte_at = { λ m. memory_in m };

    ghost readies = { λ m page. is_some (page_in m.above page) };

    fn is_open(&self, page: u32) -> bool {
        page < PAGES
    }

    fn is_ready(&self, page: u32) -> bool {
        self.above.page(page).is_some()
    }

    fn load_word(&self, address: u32) -> u32 {
        let bytes = self.bytes_of(address / 1024);
        let at = (address % 1024) as usize;
        u32::from_le_bytes([bytes[at], bytes[at + 1], bytes[at + 2], bytes[at + 3]])
    }

    fn make_ready(&mut self, page: u32) -> Result<(), AllocError> {
        if self.above.is_open(page) {
            return Ok(());
        }
        match self.below.page(page) {
            Some(content) => self.above.open(page, content),
            None => self.above.open(page, &Page::of(&[0; 1024])),
        }
    }

    fn store_word(&mut self, address: u32, value: u32) {
        self.above.store_word(address, value);
    }
}
