ghost use Rattle.std.specs.Prelude.{◌≡◌, ℕ, ◌+◌, ◌*◌, ◌<◌, ◌≤◌, length, option_map, IfOk, OnOk};
ghost use Rattle.std.specs.Option.{option_or};
ghost use Rattle.part_tree.specs.Tree.{node};
ghost use Rattle.page_tree.specs.Blocks.{memory_by, page_of_low, IsLow};
ghost use Rattle.page_tree.specs.Changes.{last_of};

use crate::block::Block;
use crate::digests::{page_digest, place, refresh};
use crate::steps::Steps;
use digest_core::{Digest, Digester};
use page_core::Page;
use std::alloc::{AllocError, Global};
use std::sync::ledger::Ledger;

impl Block<Page> {
    // Puts these pages in their places, and answers the digest of the block.
    pub(crate) fn renew_pages<D: Digester, L: Ledger>(
        &mut self,
        alloc: Global,
        pages: &[(u32, Page)],
        steps: &mut Steps<L>,
    ) -> Result<Digest, AllocError>
        requires some { 1 ≤ length pages.now }
        requires block { IsLow D.digest_of self.old }
        ensures block { OnOk result (IsLow D.digest_of self.new) }
        ensures pages { OnOk result ((n : ℕ) → page_of_low self.new n
            ≡ option_or (last_of 64 n pages.now) (page_of_low self.old n)) }
        ensures digest { IfOk result (λ digest. (x : ℕ) →
            digest ≡ node D.digest_of (memory_by (page_of_low self.new)) 6 x) }
        ensures rises { steps.old ≤ steps.new }
        ensures cost { steps.new ≤ steps.old + 7 * length pages.now }
    {
        for (number, page) in pages {
            let digest = page_digest::<D, L>(page, steps);
            self.put(alloc, *number, Page::of(page.bytes()), digest)?;
        }
        Ok(refresh::<D, L>(&mut self.digests, 0, pages, steps))
    }

    // The page with this number, of which the last six binary digits count.
    pub(crate) fn low_page<D: Digester>(&self, number: u32) -> Option<&Page>
        requires { IsLow D.digest_of self.now }
        ensures { option_map (λ page. page.now) result ≡ page_of_low self.now number }
    {
        self.child(number)
    }

    // The digest of a node of height 0 to 5 over its pages.
    pub(crate) fn low_node<D: Digester>(&self, height: u32, index: u32) -> Digest
        requires low { height < 6 }
        requires block { IsLow D.digest_of self.now }
        ensures { result ≡ node D.digest_of (memory_by (page_of_low self.now)) height index }
    {
        self.digests[place(height, index)]
    }
}
