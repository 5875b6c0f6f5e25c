ghost use Rattle.std.specs.Prelude.{◌≡◌, ℕ, ◌+◌, ◌%◌, ◌==◌, if◌then◌else◌, Some, None, length, slice_set, option_map, IfOk, OnOk};
ghost use Rattle.page_tree.specs.Blocks.{child_at};

use digest_core::Digest;
use page_core::Page;
use std::alloc::{AllocError, Global};
use std::sync::Arc;

/// 64 children, of which one is absent where no page is stored below it, and the digests of the nodes over them:
/// node i of the block's height k, 0 for the children and up to 5, at the place 2^(6 - k) + i of 128. The places 0
/// and 1 are unused. Trees of one memory after the other hold the blocks and pages that didn't change together.
#[derive(Drop)]
pub(crate) struct Block<C> {
    pub(crate) digests: [Digest; 128],
    pub(crate) children: Vec<Option<Arc<C, Global>>>,
}

/// Over 64 pages.
pub(crate) type Low = Block<Page>;

/// Over 64 low blocks, of 4,096 pages.
pub(crate) type Middle = Block<Low>;

/// Over 64 middle blocks, of all pages.
pub(crate) type Top = Block<Middle>;

impl<C: Drop> Block<C> {
    // A block with the same children, at the cost of a reference to each.
    pub(crate) fn shared(&self, alloc: Global) -> Result<Block<C>, AllocError>
        ensures long { IfOk result
            (λ block. length block.children.items ≡ length self.now.children.items) }
        ensures children { IfOk result (λ block. (k : ℕ) → child_at block.children.items k
            ≡ child_at self.now.children.items k) }
        ensures digests { IfOk result (λ block. block.digests ≡ self.now.digests) }
    {
        let mut children = Vec::new(alloc);
        for child in &self.children {
            let again = match child {
                Some(child) => Some(Arc::try_clone(child)?),
                None => None,
            };
            children.push(again)?;
        }
        Ok(Block {
            digests: self.digests,
            children,
        })
    }

    // A block without children.
    pub(crate) fn empty(alloc: Global, digests: [Digest; 128]) -> Result<Block<C>, AllocError>
        ensures long { IfOk result (λ block. length block.children.items ≡ 64) }
        ensures children { IfOk result
            (λ block. (k : ℕ) → child_at block.children.items k ≡ None) }
        ensures digests { IfOk result (λ block. block.digests ≡ digests) }
    {
        let mut children = Vec::new(alloc);
        for _place in 0..64usize {
            children.push(None)?;
        }
        Ok(Block { digests, children })
    }

    // The child with this number, of which the last six binary digits count.
    pub(crate) fn child(&self, number: u32) -> Option<&C>
        requires { length self.now.children.items ≡ 64 }
        ensures { option_map (λ child. child.now) result
            ≡ child_at self.now.children.items (number % 64) }
    {
        match &self.children[(number % 64) as usize] {
            Some(child) => Some(child),
            None => None,
        }
    }

    // Puts another child, with its digest, in the place of one.
    pub(crate) fn put(
        &mut self,
        alloc: Global,
        number: u32,
        child: C,
        digest: Digest,
    ) -> Result<(), AllocError>
        requires { length self.old.children.items ≡ 64 }
        ensures long { OnOk result (length self.new.children.items ≡ 64) }
        ensures child { OnOk result ((k : ℕ) → child_at self.new.children.items k
            ≡ (if k == number % 64 then Some child else child_at self.old.children.items k)) }
        ensures digest { OnOk result
            (self.new.digests ≡ slice_set self.old.digests (64 + number % 64) digest) }
    {
        let Ok(child) = Arc::new(alloc, child) else {
            return Err(AllocError);
        };
        let place = (number % 64) as usize;
        self.children[place] = Some(child);
        self.digests[64 + place] = digest;
        Ok(())
    }
}
