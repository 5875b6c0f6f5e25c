ghost use Rattle.std.specs.Prelude.{◌≡◌, ◌≢◌, ℕ, ◌<◌, ◌≤◌, Some, None, OnOk, OnErr, option_map};
ghost use Rattle.rv_step.specs.Opened.{page_in};
ghost use Rattle.page_core.specs.declared.sizes.TheConstants.{PAGES};

use crate::bus::Bus;
use page_core::Page;
use std::alloc::{AllocError, Global};
use std::marker::Model;

/// Pages that were opened, by their numbers from 0 to 262,143, as a bus: every open page is ready.
/// Contracts see a list with, at each number, the page's bytes if it is open.
#[derive(Drop)]
pub struct OpenPages {
    pages: Vec<Option<Box<Page>>>,
}

impl Model for OpenPages {
    ghost use Rattle.std.specs.Prelude.{ℕ, List, Option, map, option_map};

    ghost Value = { List (Option (List ℕ)) };

    ghost view = { λ b. map (option_map (λ page. page.value)) b.pages.items };
}

impl OpenPages {
    /// No open page. It takes no memory.
    pub fn new(alloc: Global) -> OpenPages
        ensures { (number : ℕ) → page_in result number ≡ None }
    {
        OpenPages {
            pages: Vec::new(alloc),
        }
    }

    /// Opens a page, or puts other bytes into an open one. Without memory no page changes.
    pub fn open(&mut self, number: u32, page: &Page) -> Result<(), AllocError>
        requires { number < PAGES }
        ensures opened { OnOk result (page_in self.new number ≡ Some page.now) }
        ensures others { (n : ℕ) → n ≢ number → page_in self.new n ≡ page_in self.old n }
        ensures kept { OnErr result ((n : ℕ) → page_in self.new n ≡ page_in self.old n) }
    {
        let place = number as usize;
        let content = Box::new(*self.pages.allocator(), Page::of(page.bytes()))?;
        while self.pages.len() <= place {
            self.pages.push(None)?;
        }
        self.pages[place] = Some(content);
        Ok(())
    }

    /// The page with this number; None exactly where it isn't open.
    pub fn page(&self, number: u32) -> Option<&Page>
        ensures { option_map (λ page. page.now) result ≡ page_in self.now number }
    {
        match self.pages.get(number as usize) {
            Some(Some(page)) => Some(page),
            _ => None,
        }
    }
}

impl Bus for OpenPages {
    ghost use Rattle.std.specs.Prelude.{is_some};
    ghost use Rattle.page_core.specs.Memories.{flat};
    ghost use Rattle.rv_step.specs.Opened.{page_in, pages_in};

    ghost opens = { λ b page. is_some (page_in b page) };

    ghost byte_at = { λ b. flat (pages_in b) };

    ghost readies = { λ b page. is_some (page_in b page) };

    fn is_open(&self, page: u32) -> bool {
        self.page(page).is_some()
    }

    fn is_ready(&self, page: u32) -> bool {
        self.page(page).is_some()
    }

    fn load_word(&self, address: u32) -> u32 {
        let Some(page) = self.page(address / 1024) else {
            unreachable!();
        };
        let bytes = page.bytes();
        let at = (address % 1024) as usize;
        u32::from_le_bytes([bytes[at], bytes[at + 1], bytes[at + 2], bytes[at + 3]])
    }

    fn make_ready(&mut self, _page: u32) -> Result<(), AllocError> {
        Ok(())
    }

    fn store_word(&mut self, address: u32, value: u32) {
        let number = (address / 1024) as usize;
        let at = (address % 1024) as usize;
        let Some(page) = &mut self.pages[number] else {
            unreachable!();
        };
        page.put(at, &value.to_le_bytes());
    }
}
