ghost use Rattle.std.specs.Prelude.{◌≡◌, ℕ, ◌+◌, ◌-◌, ◌*◌, ◌^◌, ◌<◌, ◌≤◌, [], length, map, IfOk, OnOk, OnErr, option_map};
ghost use Rattle.page_core.specs.Pages.{ArePages};
ghost use Rattle.page_core.specs.Stored.{IsStoredFrom, stored_at, stored_pages};
ghost use Rattle.part_tree.specs.Tree.{node, root};
ghost use Rattle.part_tree.specs.Part.{part_of};
ghost use Rattle.part_tree.specs.Canonical.{IsCanonical};
ghost use Rattle.part_tree.specs.Views.{part};
ghost use Rattle.page_tree.specs.Grown.{AscendFrom, stored_with_all};
ghost use Rattle.part_tree.specs.declared.sizes.TheConstants.{HEIGHT, MOST_PAGES};

use crate::block::Top;
use crate::build::filled;
use crate::digests::zero_digests;
use crate::open::open_below;
use crate::steps::Steps;
use crate::zeros::ZeroNodes;
use digest_core::{Digest, Digester};
use page_core::{PAGES, Page, PageMap};
use part_tree::{HEIGHT, PartTree};
use std::alloc::{AllocError, Global};
use std::marker::{Brand, Model};
use std::sync::Arc;
use std::sync::ledger::{Blank, Ledger};

/// The hash tree over a memory of 262,144 pages. It holds the stored pages and the digests of the nodes over them, in
/// blocks of 64 children, and for each height one digest without a stored page. A page that isn't stored is zero.
/// Contracts see the list of the numbers and bytes of the stored pages, ascending.
#[derive(Drop)]
pub struct PageTree<D: Digester> {
    top: Arc<Top, Global>,
    root: Digest,
    zeros: ZeroNodes<D>,
    alloc: Global,
}

impl<D: Digester> Model for PageTree<D> {
    ghost use Rattle.std.specs.Prelude.{◌≡◌};
    ghost use Rattle.std.specs.Arc.{arc_value};
    ghost use Rattle.page_core.specs.Stored.{Stored};
    ghost use Rattle.page_core.specs.declared.sizes.TheConstants.{PAGES};
    ghost use Rattle.part_tree.specs.Tree.{node};
    ghost use Rattle.part_tree.specs.declared.sizes.TheConstants.{HEIGHT};
    ghost use Rattle.page_tree.specs.Blocks.{memory_by, page_of_top, IsTop};
    ghost use Rattle.page_tree.specs.Grown.{gathered};

    ghost Value = { Stored };

    ghost view = { λ t. gathered (page_of_top (arc_value t.top)) 0 PAGES };

    ghost invariant = { λ t. IsTop D.digest_of (arc_value t.top)
        × (t.root ≡ node D.digest_of (memory_by (page_of_top (arc_value t.top))) HEIGHT 0) };
}

impl<D: Digester> PageTree<D> {
    /// The tree of the memory that a map stands for. It computes at most 7 digests for each stored page, 12 for each 64
    /// pages with one stored among them, and 19 besides. An AllocError is want of memory.
    pub fn from_map(alloc: Global, map: &PageMap) -> Result<PageTree<D>, AllocError>
        ensures tree { IfOk result (λ tree. tree ≡ map.now) }
        ensures numbers { IsStoredFrom 0 map.now }
    {
        filled::<D, Brand>(alloc, map, Blank::new(1))
    }

    // The tree of a memory of zeros.
    pub(crate) fn empty(alloc: Global) -> Result<PageTree<D>, AllocError>
        ensures { IfOk result (λ tree. tree ≡ []) }
    {
        let zeros = ZeroNodes::<D>::new();
        let root = zeros.at(HEIGHT);
        let block = Top::empty(alloc, zero_digests(&zeros, 12))?;
        let Ok(top) = Arc::new(alloc, block) else {
            return Err(AllocError);
        };
        Ok(PageTree {
            top,
            root,
            zeros,
            alloc,
        })
    }

    /// Puts pages, under numbers that ascend without repeats, in the place of those with the same numbers. It makes the
    /// blocks on the paths to them anew and computes the digest of each node on a path once, at most 19 for each page;
    /// it shares all else with the tree before. An AllocError is want of memory, and then nothing is changed.
    pub fn update<L: Ledger>(
        &mut self,
        pages: &[(u32, Page)],
        steps: &mut Steps<L>,
    ) -> Result<(), AllocError>
        requires { AscendFrom 0 (map (λ page. page.0) pages.now) }
        ensures updated { OnOk result (self.new ≡ stored_with_all self.old pages.now) }
        ensures rises { steps.old ≤ steps.new }
        ensures cost { steps.new ≤ steps.old + 19 * length pages.now }
        ensures refused { OnErr result (self.new ≡ self.old) }
    {
        if pages.is_empty() {
            return Ok(());
        }
        let mut block = self.top.shared(self.alloc)?;
        let root = block.renew_middles::<D, L>(self.alloc, &self.zeros, pages, steps)?;
        let Ok(top) = Arc::new(self.alloc, block) else {
            return Err(AllocError);
        };
        self.top = top;
        self.root = root;
        Ok(())
    }

    /// A tree of the same memory, at the cost of a reference. An AllocError says that 2^63 share it.
    pub fn share(&self) -> Result<PageTree<D>, AllocError>
        ensures same { IfOk result (λ tree. tree ≡ self.now) }
        ensures pages { ArePages (stored_pages self.now) }
    {
        Ok(PageTree {
            top: Arc::try_clone(&self.top)?,
            root: self.root,
            zeros: self.zeros.copied(),
            alloc: self.alloc,
        })
    }

    /// The digest of the whole memory. It takes no memory.
    pub fn root(&self) -> Digest
        ensures { result ≡ root D.digest_of (stored_pages self.now) }
    {
        self.root
    }

    /// The digest of the node of a height up to 18 with this number below 2^(18 - height): height 0 has the pages, and
    /// node i of height h + 1 stands over the nodes 2i and 2i + 1 of height h. It takes no memory.
    pub fn node_at(&self, height: u8, index: u32) -> Digest
        requires low { height ≤ HEIGHT }
        requires fits { index < 2 ^ (HEIGHT - height) }
        ensures { result ≡ node D.digest_of (stored_pages self.now) height index }
    {
        let height = u32::from(height);
        if height == HEIGHT {
            self.root
        } else {
            self.top.top_node(&self.zeros, height, index)
        }
    }

    /// The page with this number; None exactly where it isn't stored. It takes no memory.
    pub fn page(&self, page: u32) -> Option<&Page>
        ensures { option_map (λ content. content.now) result ≡ stored_at self.now page }
    {
        if page < PAGES {
            self.top.top_page::<D>(page)
        } else {
            None
        }
    }

    /// The part tree of the memory that opens exactly these pages, 1 to 4,096 numbers below 262,144 that ascend
    /// without repeats, and is pruned at each highest node without one. An AllocError is want of memory.
    pub fn open(&self, pages: &[u32]) -> Result<PartTree, AllocError>
        requires some { 1 ≤ length pages.now }
        requires few { length pages.now ≤ MOST_PAGES }
        requires ascending { AscendFrom 0 pages.now }
        ensures tree { IfOk result
            (λ tree. part tree ≡ part_of D.digest_of (stored_pages self.now) pages.now HEIGHT 0) }
        ensures canonical { IfOk result (λ tree. IsCanonical (part tree)) }
    {
        open_below(self.alloc, self, HEIGHT, 0, pages)
    }
}
