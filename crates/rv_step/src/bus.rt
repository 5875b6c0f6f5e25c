ghost use Rattle.std.specs.Prelude.{◌≡◌, ◌≢◌, ℕ, ◌/◌, ◌%◌, ◌^◌, ◌<◌, Bool, IsTrue, IfOk, OnOk, All};
ghost use Rattle.std.specs.Int.{w32, to_le_bytes, from_le_bytes};
ghost use Rattle.page_core.specs.Memory.{bytes, put};

use std::alloc::AllocError;

/// Memory as a step reaches it. Some of its pages, numbered from 0 to 262,143, are open, and some of
/// the open ones are ready to be written. Words are little-endian, at addresses that are multiples of 4.
pub trait Bus {
    /// Whether a page is open.
    ghost opens: { Self → ℕ → Bool };

    /// The byte at an address.
    ghost byte_at: { Self → ℕ → ℕ };

    /// Whether a page is ready.
    ghost readies: { Self → ℕ → Bool };

    /// Whether a page is open.
    fn is_open(&self, page: u32) -> bool
        ensures { result ≡ opens self.now page };

    /// Whether a page is ready.
    fn is_ready(&self, page: u32) -> bool
        ensures { result ≡ readies self.now page };

    /// The word at an address of an open page.
    fn load_word(&self, address: u32) -> u32
        requires aligned { address % 4 ≡ 0 }
        requires opened { IsTrue (opens self.now (address / 1024)) }
        ensures value { result ≡ from_le_bytes w32 (bytes (byte_at self.now) address 4) }
        ensures bytes { All (λ byte. byte < 256) (bytes (byte_at self.now) address 4) };

    /// Makes an open page ready. Whether it could or not, no byte and no open page changes, and no
    /// other page's readiness.
    fn make_ready(&mut self, page: u32) -> Result<(), AllocError>
        requires { IsTrue (opens self.old page) }
        ensures same_pages { opens self.new ≡ opens self.old }
        ensures same_bytes { byte_at self.new ≡ byte_at self.old }
        ensures ready { OnOk result (IsTrue (readies self.new page)) }
        ensures others { (p : ℕ) → p ≢ page → readies self.new p ≡ readies self.old p };

    /// Writes a word at an address of a page that is open and ready. It takes no memory, changes
    /// these four bytes alone, and leaves which pages are open and ready.
    fn store_word(&mut self, address: u32, value: u32)
        requires aligned { address % 4 ≡ 0 }
        requires opened { IsTrue (opens self.old (address / 1024)) }
        requires room { IsTrue (readies self.old (address / 1024)) }
        ensures same_pages { opens self.new ≡ opens self.old }
        ensures same_room { readies self.new ≡ readies self.old }
        ensures written { byte_at self.new
            ≡ put (byte_at self.old) address (to_le_bytes w32 value) };
}
