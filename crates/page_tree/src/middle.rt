ghost use Rattle.std.specs.Prelude.{◌≡◌, ℕ, ◌+◌, ◌*◌, ◌%◌, ◌<◌, ◌≤◌, length, option_map, option_and_then, IfOk, IfSome, OnOk};
ghost use Rattle.std.specs.Option.{option_or};
ghost use Rattle.part_tree.specs.Tree.{node};
ghost use Rattle.page_tree.specs.Blocks.{memory_by, child_at, page_of_low, page_of_middle, IsLow, IsMiddle};
ghost use Rattle.page_tree.specs.Changes.{last_of};

use crate::block::{Block, Low};
use crate::digests::{place, refresh, zero_digests};
use crate::runs::first_run;
use crate::steps::Steps;
use crate::zeros::ZeroNodes;
use digest_core::{Digest, Digester};
use page_core::Page;
use std::alloc::{AllocError, Global};
use std::sync::ledger::Ledger;

impl Block<Low> {
    // Puts these pages in their places, and answers the digest of the block.
    pub(crate) fn renew_lows<D: Digester, L: Ledger>(
        &mut self,
        alloc: Global,
        zeros: &ZeroNodes<D>,
        pages: &[(u32, Page)],
        steps: &mut Steps<L>,
    ) -> Result<Digest, AllocError>
        requires some { 1 ≤ length pages.now }
        requires block { IsMiddle D.digest_of self.old }
        ensures block { OnOk result (IsMiddle D.digest_of self.new) }
        ensures pages { OnOk result ((n : ℕ) → page_of_middle self.new n
            ≡ option_or (last_of 4096 n pages.now) (page_of_middle self.old n)) }
        ensures digest { IfOk result (λ digest. (x : ℕ) →
            digest ≡ node D.digest_of (memory_by (page_of_middle self.new)) 12 x) }
        ensures rises { steps.old ≤ steps.new }
        ensures cost { steps.new ≤ steps.old + 13 * length pages.now }
    {
        let mut rest = pages;
        while !rest.is_empty() {
            let run = first_run(rest, 6);
            let mut low = self.started_low(alloc, zeros, run.node)?;
            let digest = low.renew_pages::<D, L>(alloc, run.pages, steps)?;
            self.put(alloc, run.node, low, digest)?;
            rest = run.after;
        }
        Ok(refresh::<D, L>(&mut self.digests, 6, pages, steps))
    }

    // The low block with this number, to be changed: it shares the children of the one of this block, or has none.
    fn started_low<D: Digester>(
        &self,
        alloc: Global,
        zeros: &ZeroNodes<D>,
        number: u32,
    ) -> Result<Low, AllocError>
        requires long { length self.now.children.items ≡ 64 }
        requires children { (k : ℕ) →
            IfSome (child_at self.now.children.items k) (IsLow D.digest_of) }
        ensures block { IfOk result (λ low. IsLow D.digest_of low) }
        ensures pages { IfOk result (λ low. (n : ℕ) → page_of_low low n ≡ option_and_then
            (λ old. page_of_low old n) (child_at self.now.children.items (number % 64))) }
    {
        match self.child(number) {
            Some(low) => low.shared(alloc),
            None => Block::empty(alloc, zero_digests(zeros, 0)),
        }
    }

    // The page with this number, of which the last twelve binary digits count.
    pub(crate) fn middle_page<D: Digester>(&self, number: u32) -> Option<&Page>
        requires { IsMiddle D.digest_of self.now }
        ensures { option_map (λ page. page.now) result ≡ page_of_middle self.now number }
    {
        match self.child(number >> 6) {
            Some(low) => low.low_page::<D>(number),
            None => None,
        }
    }

    // The digest of a node of height 0 to 11 over its pages.
    pub(crate) fn middle_node<D: Digester>(
        &self,
        zeros: &ZeroNodes<D>,
        height: u32,
        index: u32,
    ) -> Digest
        requires low { height < 12 }
        requires block { IsMiddle D.digest_of self.now }
        ensures { result ≡ node D.digest_of (memory_by (page_of_middle self.now)) height index }
    {
        if height >= 6 {
            return self.digests[place(height - 6, index)];
        }
        match self.child(index >> (6 - height)) {
            Some(low) => low.low_node::<D>(height, index),
            None => zeros.at(height),
        }
    }
}
