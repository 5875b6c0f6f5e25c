//! Where segments begin.
ghost use Rattle.std.specs.Prelude.{◌≡◌, ℕ, ◌<◌, Contains, length, IfOk};
ghost use Rattle.page_core.specs.Memories.{page_of};
ghost use Rattle.page_core.specs.Stored.{stored_pages};
ghost use Rattle.page_core.specs.declared.sizes.TheConstants.{PAGES};
ghost use Rattle.page_tree.specs.Grown.{AscendFrom};
ghost use Rattle.rv_step.specs.Machine.{full};
ghost use Rattle.flat_machine.specs.Following.{HoldsMemory};
ghost use Rattle.flat_machine.specs.Going.{flat_state};

use digest_core::Digester;
use flat_machine::{Flat, following_tree};
use page_tree::PageTree;
use std::alloc::{AllocError, Global};
use std::marker::Model;
use std::sync::ledger::{Blank, Ledger};

// Where a segment begins: its pc, how many words were read before, and the tree of its memory with the registers.
#[derive(Drop)]
pub(crate) struct Beginning<D: Digester> {
    pub(crate) pc: u32,
    pub(crate) read: usize,
    pub(crate) tree: PageTree<D>,
}

impl<D: Digester> Model for Beginning<D> {
    ghost use Rattle.executor.specs.Cutting as plain;

    ghost Value = { plain.Beginning };

    ghost view = { λ b. record { pc = b.pc; read = b.read; tree = b.tree } };
}

impl<D: Digester> Beginning<D> {
    // Where the run is, as the beginning of the next segment, after one that began here and touched these pages. Its tree
    // shares with this one what the segment left as it was.
    pub(crate) fn next<L: Ledger>(
        &self,
        alloc: Global,
        flat: &Flat,
        touched: &[u32],
        blank: Blank,
    ) -> Result<Beginning<D>, AllocError>
        requires ascending { AscendFrom 0 touched.now }
        requires others { (page : ℕ) → page < PAGES → ¬ Contains touched.now page →
            stored_pages self.now.tree page ≡ page_of (full (flat_state flat.now)) page }
        requires name { blank.name ≡ L.name }
        requires parts { blank.parts ≡ L.parts }
        requires some { 0 < L.parts }
        ensures pc { IfOk result (λ next. next.pc ≡ flat.now.pc) }
        ensures read { IfOk result (λ next. next.read ≡ length flat.now.read) }
        ensures memory { IfOk result (λ next. HoldsMemory next.tree (flat_state flat.now)) }
    {
        let tree = following_tree::<D, L>(alloc, &self.tree, flat, touched, blank)?;
        Ok(Beginning {
            pc: flat.pc(),
            read: flat.read().len(),
            tree,
        })
    }
}
