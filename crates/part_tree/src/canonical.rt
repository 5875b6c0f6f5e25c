ghost use Rattle.std.specs.Prelude.{◌≡◌, ◌^◌, ◌≤◌, ◌↔◌, IsTrue, IfSome, IfNone};
ghost use Rattle.part_tree.specs.Part.{IsPart};
ghost use Rattle.part_tree.specs.Canonical.{page_count, BranchesOpen, IsCanonical};
ghost use Rattle.part_tree.specs.Views.{part};
ghost use Rattle.part_tree.specs.declared.sizes.TheConstants.{HEIGHT};

use crate::sizes::{HEIGHT, MOST_PAGES};
use crate::tree::PartTree;

impl PartTree {
    /// Whether the whole tree has its canonical form: the root is a branch, branches stand at heights
    /// 18 to 1 alone and pages at height 0 alone, every branch has a page below it, and at most 4,096
    /// pages are open. It takes no memory.
    pub fn is_canonical(&self) -> bool
        ensures { IsTrue result ↔ IsCanonical (part self.now) }
    {
        match self {
            PartTree::Branch(_, _) => match self.pages_below(HEIGHT) {
                Some(pages) => pages <= MOST_PAGES,
                None => false,
            },
            _ => false,
        }
    }

    // The number of pages of a node of this height, where it has its form.
    fn pages_below(&self, height: u32) -> Option<u32>
        requires { height ≤ HEIGHT }
        ensures shape { IfSome result (λ pages. IsPart height (part self.now)) }
        ensures branches { IfSome result (λ pages. BranchesOpen (part self.now)) }
        ensures count { IfSome result (λ pages. pages ≡ page_count (part self.now)) }
        ensures none { IfNone result
            (IsPart height (part self.now) → BranchesOpen (part self.now) → ⊥) }
    {
        match self {
            PartTree::Pruned(digest) => {
                let _bytes = digest.bytes();
                Some(0)
            }
            PartTree::Branch(left, right) => {
                if height == 0 {
                    return None;
                }
                let left_pages = left.pages_below(height - 1)?;
                let right_pages = right.pages_below(height - 1)?;
                let pages = left_pages + right_pages;
                if pages == 0 { None } else { Some(pages) }
            }
            PartTree::Leaf(page) => {
                let _bytes = page.bytes();
                if height == 0 { Some(1) } else { None }
            }
        }
    }
}
