//! Memory and its pages: the two views of one memory, pages of 1,024 bytes, the map of stored pages, and images.
#![tactic(auto)]

ghost use Rattle.page_core.specs.Laws.{PagesHoldBytes, BytesHoldPages, PutReadsBack, PutLeavesOthers};

mod page;
mod page_map;
mod sizes;

pub use page::Page;
pub use page_map::PageMap;
pub use sizes::{PAGES, REGISTER_PAGE, TOP};

/// The two views of a memory undo one another, and a write of bytes changes these alone.
pub fn byte_laws()
    ensures pages { PagesHoldBytes }
    ensures bytes { BytesHoldPages }
    ensures reads_back { PutReadsBack }
    ensures others { PutLeavesOthers }
{}
