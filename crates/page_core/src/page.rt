ghost use Rattle.std.specs.Prelude.{◌≡◌, ◌+◌, ◌≤◌, ◌++◌, length, take, drop};
ghost use Rattle.page_core.specs.Pages.{IsPage};

use std::marker::Model;

/// A page of memory, of 1,024 bytes. Contracts see the list of its bytes.
#[derive(Drop)]
pub struct Page {
    bytes: [u8; 1024],
}

impl Model for Page {
    ghost use Rattle.std.specs.Prelude.{ℕ, List};

    ghost Value = { List ℕ };

    ghost view = { λ p. p.bytes };

    ghost use Rattle.page_core.specs.Pages.{IsPage};

    ghost invariant = { λ p. IsPage p.bytes };
}

impl Page {
    /// The bytes of the page.
    pub fn bytes(&self) -> &[u8; 1024]
        ensures value { result.now ≡ self.now }
        ensures page { IsPage self.now }
    {
        &self.bytes
    }

    /// The page of these 1,024 bytes. It takes no memory.
    pub fn of(bytes: &[u8]) -> Page
        requires { length bytes.now ≡ 1024 }
        ensures { result ≡ bytes.now }
    {
        let mut page = [0; 1024];
        page.copy_from_slice(bytes);
        Page { bytes: page }
    }

    /// Puts bytes at a place in the page, where they end within it. It takes no memory.
    pub fn put(&mut self, at: usize, bytes: &[u8])
        requires { at + length bytes.now ≤ 1024 }
        ensures value { self.new
            ≡ take at self.old ++ (bytes.now ++ drop (at + length bytes.now) self.old) }
        ensures was_page { IsPage self.old }
        ensures page { IsPage self.new }
    {
        self.bytes[at..at + bytes.len()].copy_from_slice(bytes);
    }
}
