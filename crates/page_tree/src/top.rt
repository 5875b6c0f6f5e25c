ghost use Rattle.std.specs.Prelude.{◌≡◌, ℕ, ◌+◌, ◌*◌, ◌%◌, ◌<◌, ◌≤◌, length, option_map, option_and_then, IfOk, IfSome, OnOk};
ghost use Rattle.std.specs.Option.{option_or};
ghost use Rattle.part_tree.specs.Tree.{node};
ghost use Rattle.page_tree.specs.Blocks.{memory_by, child_at, page_of_middle, page_of_top, IsMiddle, IsTop};
ghost use Rattle.page_tree.specs.Changes.{last_of};

use crate::block::{Block, Middle};
use crate::digests::{place, refresh, zero_digests};
use crate::runs::first_run;
use crate::steps::Steps;
use crate::zeros::ZeroNodes;
use digest_core::{Digest, Digester};
use page_core::Page;
use std::alloc::{AllocError, Global};
use std::sync::ledger::Ledger;

impl Block<Middle> {
    // Puts these pages in their places, and answers the digest of the block.
    pub(crate) fn renew_middles<D: Digester, L: Ledger>(
        &mut self,
        alloc: Global,
        zeros: &ZeroNodes<D>,
        pages: &[(u32, Page)],
        steps: &mut Steps<L>,
    ) -> Result<Digest, AllocError>
        requires some { 1 ≤ length pages.now }
        requires block { IsTop D.digest_of self.old }
        ensures block { OnOk result (IsTop D.digest_of self.new) }
        ensures pages { OnOk result ((n : ℕ) → page_of_top self.new n
            ≡ option_or (last_of 262144 n pages.now) (page_of_top self.old n)) }
        ensures digest { IfOk result (λ digest. (x : ℕ) →
            digest ≡ node D.digest_of (memory_by (page_of_top self.new)) 18 x) }
        ensures rises { steps.old ≤ steps.new }
        ensures cost { steps.new ≤ steps.old + 19 * length pages.now }
    {
        let mut rest = pages;
        while !rest.is_empty() {
            let run = first_run(rest, 12);
            let mut middle = self.started_middle(alloc, zeros, run.node)?;
            let digest = middle.renew_lows::<D, L>(alloc, zeros, run.pages, steps)?;
            self.put(alloc, run.node, middle, digest)?;
            rest = run.after;
        }
        Ok(refresh::<D, L>(&mut self.digests, 12, pages, steps))
    }

    // The middle block with this number, to be changed: it shares the children of the one of this block, or has none.
    fn started_middle<D: Digester>(
        &self,
        alloc: Global,
        zeros: &ZeroNodes<D>,
        number: u32,
    ) -> Result<Middle, AllocError>
        requires long { length self.now.children.items ≡ 64 }
        requires children { (k : ℕ) →
            IfSome (child_at self.now.children.items k) (IsMiddle D.digest_of) }
        ensures block { IfOk result (λ middle. IsMiddle D.digest_of middle) }
        ensures pages { IfOk result (λ middle. (n : ℕ) → page_of_middle middle n ≡ option_and_then
            (λ old. page_of_middle old n) (child_at self.now.children.items (number % 64))) }
    {
        match self.child(number) {
            Some(middle) => middle.shared(alloc),
            None => Block::empty(alloc, zero_digests(zeros, 6)),
        }
    }

    // The page with this number, of which the last 18 binary digits count.
    pub(crate) fn top_page<D: Digester>(&self, number: u32) -> Option<&Page>
        requires { IsTop D.digest_of self.now }
        ensures { option_map (λ page. page.now) result ≡ page_of_top self.now number }
    {
        match self.child(number >> 12) {
            Some(middle) => middle.middle_page::<D>(number),
            None => None,
        }
    }

    // The digest of a node of height 0 to 17 over its pages.
    pub(crate) fn top_node<D: Digester>(
        &self,
        zeros: &ZeroNodes<D>,
        height: u32,
        index: u32,
    ) -> Digest
        requires low { height < 18 }
        requires block { IsTop D.digest_of self.now }
        ensures { result ≡ node D.digest_of (memory_by (page_of_top self.now)) height index }
    {
        if height >= 12 {
            return self.digests[place(height - 12, index)];
        }
        match self.child(index >> (12 - height)) {
            Some(middle) => middle.middle_node(zeros, height, index),
            None => zeros.at(height),
        }
    }
}
