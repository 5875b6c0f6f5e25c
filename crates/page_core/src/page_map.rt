ghost use Rattle.std.specs.Prelude.{◌≡◌, ◌≢◌, ◌⊎◌, ◌||◌, is_some, ℕ, ◌+◌, ◌%◌, ◌/◌, ◌<◌, ◌≤◌, [], ◌∷◌, ◌++◌, length, take, drop, OnOk, OnErr, option_map};
ghost use Rattle.std.specs.Int.{w16, w32, to_le_bytes, from_le_bytes};
ghost use Rattle.page_core.specs.Memory.{bytes, put, pages_of, is_among};
ghost use Rattle.page_core.specs.Stored.{IsStoredFrom, stored_at, first_from, stored_pages, memory_of, StoresAlso, StoresSome, IsAbsentAmong};
ghost use Rattle.page_core.specs.declared.sizes.TheConstants.{PAGES};

use crate::Page;
use std::alloc::{AllocError, Global};
use std::collections::BTreeMap;
use std::marker::Model;

/// The stored pages of a memory of 2^28 bytes, by their numbers from 0 to 262,143. A page that isn't
/// stored is zero. Contracts see the list of the numbers and bytes of the stored pages, ascending.
#[derive(Drop)]
pub struct PageMap {
    pages: BTreeMap<u32, Box<Page>>,
    alloc: Global,
}

impl Model for PageMap {
    ghost use Rattle.std.specs.Prelude.{map};
    ghost use Rattle.page_core.specs.Stored.{Stored};

    ghost Value = { Stored };

    ghost view = { λ m. map (λ entry. (entry.0, entry.1.value)) m.pages.entries };

    ghost use Rattle.page_core.specs.Stored.{IsStoredFrom};

    ghost invariant = { λ m. IsStoredFrom 0 (map (λ entry. (entry.0, entry.1.value)) m.pages.entries) };
}

impl PageMap {
    /// A memory of zeros, with no page stored. It takes no memory: `alloc` is for the pages that are put later.
    pub fn new(alloc: Global) -> PageMap
        ensures { result ≡ [] }
    {
        PageMap {
            pages: BTreeMap::new(alloc),
            alloc,
        }
    }

    /// The page with this number; None exactly where it isn't stored.
    pub fn page(&self, page: u32) -> Option<&Page>
        ensures { option_map (λ content. content.now) result ≡ stored_at self.now page }
    {
        match self.pages.get(&page) {
            Some(content) => Some(content),
            None => None,
        }
    }

    /// The first stored page from a number on, with its number; None exactly where no such page is stored.
    pub fn next_from(&self, least: u32) -> Option<(u32, &Page)>
        ensures found { option_map (λ found. (found.0, found.1.now)) result
            ≡ first_from least self.now }
        ensures stored { IsStoredFrom 0 self.now }
    {
        match self.pages.range(least..).next() {
            Some((number, page)) => Some((*number, page)),
            None => None,
        }
    }

    // The bytes of the page in which an address lies.
    fn bytes_around(&self, address: u32) -> &[u8; 1024]
        ensures { result.now ≡ stored_pages self.now (address / 1024) }
    {
        match self.page(address / 1024) {
            Some(page) => page.bytes(),
            None => &[0; 1024],
        }
    }

    /// The byte at an address below 2^28.
    pub fn byte(&self, address: u32) -> u8
        requires { address < 268435456 }
        ensures { result ≡ memory_of self.now address }
    {
        self.bytes_around(address)[(address % 1024) as usize]
    }

    /// The halfword at an even address below 2^28, little-endian.
    pub fn half(&self, address: u32) -> u16
        requires below { address < 268435456 }
        requires aligned { address % 2 ≡ 0 }
        ensures { result ≡ from_le_bytes w16 (bytes (memory_of self.now) address 2) }
    {
        let bytes = self.bytes_around(address);
        let at = (address % 1024) as usize;
        u16::from_le_bytes([bytes[at], bytes[at + 1]])
    }

    /// The word at an address below 2^28 that is a multiple of 4, little-endian.
    pub fn word(&self, address: u32) -> u32
        requires below { address < 268435456 }
        requires aligned { address % 4 ≡ 0 }
        ensures { result ≡ from_le_bytes w32 (bytes (memory_of self.now) address 4) }
    {
        let bytes = self.bytes_around(address);
        let at = (address % 1024) as usize;
        u32::from_le_bytes([bytes[at], bytes[at + 1], bytes[at + 2], bytes[at + 3]])
    }

    /// Puts a page under a number up to 262,143. Where the page is stored it takes no memory; an AllocError is
    /// want of memory, and then nothing is changed.
    pub fn put_page(&mut self, page: u32, content: &Page) -> Result<(), AllocError>
        requires { page < PAGES }
        ensures put { OnOk result (stored_at self.new page ≡ Some content.now) }
        ensures others { (n : ℕ) → n ≢ page → stored_at self.new n ≡ stored_at self.old n }
        ensures absent { OnErr result (stored_at self.old page ≡ None) }
        ensures kept { OnErr result (self.new ≡ self.old) }
    {
        self.overwrite(page, 0, content.bytes())
    }

    /// Sets the byte at an address below 2^28, and stores its page. Where the page is stored it takes no memory;
    /// an AllocError is want of memory, and then nothing is changed.
    pub fn set_byte(&mut self, address: u32, value: u8) -> Result<(), AllocError>
        requires { address < 268435456 }
        ensures written { OnOk result
            ((a : ℕ) → memory_of self.new a ≡ put (memory_of self.old) address (value ∷ []) a) }
        ensures stored { OnOk result (StoresAlso (address / 1024) self.old self.new) }
        ensures absent { OnErr result (stored_at self.old (address / 1024) ≡ None) }
        ensures kept { OnErr result (self.new ≡ self.old) }
    {
        self.put_bytes(address, &value.to_le_bytes())
    }

    /// Sets the halfword at an even address below 2^28, little-endian, and stores its page. Where the page is
    /// stored it takes no memory; an AllocError is want of memory, and then nothing is changed.
    pub fn set_half(&mut self, address: u32, value: u16) -> Result<(), AllocError>
        requires below { address < 268435456 }
        requires aligned { address % 2 ≡ 0 }
        ensures written { OnOk result
            ((a : ℕ) → memory_of self.new a
            ≡ put (memory_of self.old) address (to_le_bytes w16 value) a) }
        ensures stored { OnOk result (StoresAlso (address / 1024) self.old self.new) }
        ensures absent { OnErr result (stored_at self.old (address / 1024) ≡ None) }
        ensures kept { OnErr result (self.new ≡ self.old) }
    {
        self.put_bytes(address, &value.to_le_bytes())
    }

    /// Sets the word at an address below 2^28 that is a multiple of 4, little-endian, and stores its page. Where
    /// the page is stored it takes no memory; an AllocError is want of memory, and then nothing is changed.
    pub fn set_word(&mut self, address: u32, value: u32) -> Result<(), AllocError>
        requires below { address < 268435456 }
        requires aligned { address % 4 ≡ 0 }
        ensures written { OnOk result
            ((a : ℕ) → memory_of self.new a
            ≡ put (memory_of self.old) address (to_le_bytes w32 value) a) }
        ensures stored { OnOk result (StoresAlso (address / 1024) self.old self.new) }
        ensures absent { OnErr result (stored_at self.old (address / 1024) ≡ None) }
        ensures kept { OnErr result (self.new ≡ self.old) }
    {
        self.put_bytes(address, &value.to_le_bytes())
    }

    /// Puts bytes at an address, where they end at or below 2^28, and stores their pages. Where these are stored it takes
    /// no memory; an AllocError is want of memory, and then each byte is as before or as it was to be.
    pub fn set_bytes(&mut self, address: u32, bytes: &[u8]) -> Result<(), AllocError>
        requires { address + length bytes.now ≤ 268435456 }
        ensures written { OnOk result
            ((a : ℕ) → memory_of self.new a ≡ put (memory_of self.old) address bytes.now a) }
        ensures stored { OnOk result
            ((n : ℕ) → is_some (stored_at self.new n)
            ≡ (is_among (pages_of address (length bytes.now)) n || is_some
            (stored_at self.old n))) }
        ensures torn { OnErr result
            ((a : ℕ) → (memory_of self.new a ≡ memory_of self.old a)
            ⊎ (memory_of self.new a ≡ put (memory_of self.old) address bytes.now a)) }
        ensures stored_some { OnErr result
            (StoresSome (pages_of address (length bytes.now)) self.old self.new) }
        ensures absent { OnErr result
            (IsAbsentAmong (pages_of address (length bytes.now)) self.old) }
    {
        let mut at = address;
        let mut rest = bytes;
        while !rest.is_empty() {
            let room = 1024 - (at % 1024) as usize;
            let (part, after) = rest.split_at(room.min(rest.len()));
            self.put_bytes(at, part)?;
            at += part.len() as u32;
            rest = after;
        }
        Ok(())
    }

    // Puts bytes that lie in one page at an address, and stores the page.
    fn put_bytes(&mut self, address: u32, bytes: &[u8]) -> Result<(), AllocError>
        requires below { address < 268435456 }
        requires fits { address % 1024 + length bytes.now ≤ 1024 }
        ensures written { OnOk result
            ((a : ℕ) → memory_of self.new a ≡ put (memory_of self.old) address bytes.now a) }
        ensures stored { OnOk result (StoresAlso (address / 1024) self.old self.new) }
        ensures absent { OnErr result (stored_at self.old (address / 1024) ≡ None) }
        ensures kept { OnErr result (self.new ≡ self.old) }
    {
        self.overwrite(address / 1024, (address % 1024) as usize, bytes)
    }

    // Puts bytes at a place in a page, and stores the page. A page that is stored is changed where it is.
    fn overwrite(&mut self, page: u32, at: usize, bytes: &[u8]) -> Result<(), AllocError>
        requires below { page < PAGES }
        requires fits { at + length bytes.now ≤ 1024 }
        ensures put { let old = stored_pages self.old page in
            OnOk result (stored_at self.new page
            ≡ Some (take at old ++ (bytes.now ++ drop (at + length bytes.now) old))) }
        ensures length { length (stored_pages self.old page) ≡ 1024 }
        ensures others { (n : ℕ) → n ≢ page → stored_at self.new n ≡ stored_at self.old n }
        ensures absent { OnErr result (stored_at self.old page ≡ None) }
        ensures kept { OnErr result (self.new ≡ self.old) }
    {
        match self.pages.get_mut(&page) {
            Some(stored) => {
                stored.put(at, bytes);
                Ok(())
            }
            None => {
                let mut content = Page::of(&[0; 1024]);
                content.put(at, bytes);
                let stored = Box::new(self.alloc, content)?;
                self.pages.insert(page, stored)?;
                Ok(())
            }
        }
    }
}
