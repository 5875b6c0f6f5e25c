ghost use Rattle.std.specs.Prelude.{◌≡◌, ℕ, Bool};
ghost use Rattle.page_core.specs.declared.sizes.TheConstants.{PAGES};

use page_core::PAGES;

/// A set of pages, by their numbers.
pub trait PageSet {
    /// Whether it has a page.
    ghost holds: { Self → ℕ → Bool };

    /// Whether it has a page.
    fn has(&self, page: u32) -> bool
        ensures { result ≡ holds self.now page };
}

/// The pages of a whole memory.
#[derive(Clone, Copy, Debug)]
pub struct AllPages;

impl PageSet for AllPages {
    ghost use Rattle.std.specs.Prelude.{ltb};
    ghost use Rattle.page_core.specs.declared.sizes.TheConstants.{PAGES};

    ghost holds = { λ _ page. ltb page PAGES };

    fn has(&self, page: u32) -> bool {
        page < PAGES
    }
}
