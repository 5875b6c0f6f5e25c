ghost use Rattle.std.specs.Prelude.{◌≡◌, ◌-◌, ◌^◌, ◌<◌, ◌≤◌, ◌++◌, IsSome, IfOk, OnOk, option_map};
ghost use Rattle.page_core.specs.Pages.{Pages, with_page};
ghost use Rattle.part_tree.specs.Part.{IsPart, HasPages, root_of, page_at, open_numbers, fill, put_part};
ghost use Rattle.part_tree.specs.Tree.{IsBelow};
ghost use Rattle.part_tree.specs.Views.{part};
ghost use Rattle.part_tree.specs.declared.sizes.TheConstants.{HEIGHT};

use crate::sizes::HEIGHT;
use byte_cursor::ItemList;
use digest_core::{Digest, Digester};
use page_core::{PAGES, Page};
use std::alloc::{AllocError, Global};

/// A list of page numbers.
pub type PageList = ItemList<u32>;

/// A hash tree in which some pages are open and the rest is pruned. The whole tree has height 18:
/// pages stand at height 0, and a branch of height h stands over two nodes of height h - 1.
#[derive(Drop)]
pub enum PartTree {
    /// The digest of a node of which no page is open.
    Pruned(Digest),
    /// A node with what is below it on the left and on the right.
    Branch(Box<PartTree>, Box<PartTree>),
    /// An open page.
    Leaf(Box<Page>),
}

impl PartTree {
    /// The digest of the tree. It takes no memory.
    pub fn root<D: Digester>(&self) -> Digest
        ensures { result ≡ root_of D.digest_of (part self.now) }
    {
        match self {
            PartTree::Pruned(digest) => *digest,
            PartTree::Branch(left, right) => {
                digest_core::node::<D>(&left.root::<D>(), &right.root::<D>())
            }
            PartTree::Leaf(page) => digest_core::hash::<D>(page.bytes()),
        }
    }

    /// The page with this number; None exactly where it isn't open. It takes no memory.
    pub fn page(&self, number: u32) -> Option<&Page>
        requires { IsPart HEIGHT (part self.now) }
        ensures { option_map (λ page. page.now) result ≡ page_at 0 (part self.now) number }
    {
        if number < PAGES {
            self.page_below(HEIGHT, 0, number)
        } else {
            None
        }
    }

    // A page at or below this node, if it is open.
    fn page_below(&self, height: u32, index: u32, number: u32) -> Option<&Page>
        requires shape { IsPart height (part self.now) }
        requires low { height ≤ HEIGHT }
        requires below { IsBelow height index number }
        ensures { option_map (λ page. page.now) result ≡ page_at index (part self.now) number }
    {
        match self {
            PartTree::Pruned(_) => None,
            PartTree::Branch(left, right) => {
                let side = number >> (height - 1);
                if side % 2 == 0 {
                    left.page_below(height - 1, side, number)
                } else {
                    right.page_below(height - 1, side, number)
                }
            }
            PartTree::Leaf(page) => Some(page),
        }
    }

    /// Puts other bytes into an open page. It takes no memory.
    pub fn write(&mut self, number: u32, content: &Page)
        requires shape { IsPart HEIGHT (part self.old) }
        requires open { IsSome (page_at 0 (part self.old) number) }
        ensures { part self.new
            ≡ put_part 0 (part self.old) (with_page (fill (part self.old)) number content.now) }
    {
        self.write_below(HEIGHT, 0, number, content);
    }

    // Writes a page at or below this node, if it is open.
    fn write_below(&mut self, height: u32, index: u32, number: u32, content: &Page)
        requires shape { IsPart height (part self.old) }
        requires low { height ≤ HEIGHT }
        requires below { IsBelow height index number }
        ensures { (m : Pages) → HasPages height index (part self.old) m →
            part self.new ≡ put_part index (part self.old) (with_page m number content.now) }
    {
        match self {
            PartTree::Pruned(_) => {}
            PartTree::Branch(left, right) => {
                let side = number >> (height - 1);
                if side % 2 == 0 {
                    left.write_below(height - 1, side, number, content);
                } else {
                    right.write_below(height - 1, side, number, content);
                }
            }
            PartTree::Leaf(page) => **page = Page::of(content.bytes()),
        }
    }

    /// The numbers of the open pages, ascending.
    pub fn opened(&self, alloc: Global) -> Result<PageList, AllocError>
        requires { IsPart HEIGHT (part self.now) }
        ensures { IfOk result (λ pages. pages.items ≡ open_numbers 0 (part self.now)) }
    {
        let mut pages = PageList::new(alloc);
        self.add_opened(HEIGHT, 0, &mut pages)?;
        Ok(pages)
    }

    // Adds the numbers of the open pages at or below this node.
    fn add_opened(&self, height: u32, index: u32, pages: &mut PageList) -> Result<(), AllocError>
        requires shape { IsPart height (part self.now) }
        requires low { height ≤ HEIGHT }
        requires fits { index < 2 ^ (HEIGHT - height) }
        ensures { OnOk result
            (pages.new.items ≡ pages.old.items ++ open_numbers index (part self.now)) }
    {
        match self {
            PartTree::Pruned(_) => Ok(()),
            PartTree::Branch(left, right) => {
                left.add_opened(height - 1, 2 * index, pages)?;
                right.add_opened(height - 1, 2 * index + 1, pages)
            }
            PartTree::Leaf(_) => {
                pages.push(index)?;
                Ok(())
            }
        }
    }
}
