ghost use Rattle.std.specs.Prelude.{◌≡◌, ◌/◌, ◌^◌, ◌≤◌, ◌++◌, All, length};
ghost use Rattle.page_tree.specs.Changes.{begins_below};

use page_core::Page;

// Pages that are all below one node, with its number, and the pages after them.
#[derive(Clone, Copy)]
pub(crate) struct Run<'a> {
    pub(crate) node: u32,
    pub(crate) pages: &'a [(u32, Page)],
    pub(crate) after: &'a [(u32, Page)],
}

// The first page and those after it that are below the same node of this height.
pub(crate) fn first_run(pages: &[(u32, Page)], height: u32) -> Run
    requires some { 1 ≤ length pages.now }
    requires low { height ≤ 18 }
    ensures all { pages.now ≡ result.pages.now ++ result.after.now }
    ensures some { 1 ≤ length result.pages.now }
    ensures below { All (λ page. page.0 / 2 ^ height ≡ result.node) result.pages.now }
{
    let node = pages[0].0 >> height;
    let mut count = 1;
    while count < pages.len() && pages[count].0 >> height == node {
        count += 1;
    }
    let (run, after) = pages.split_at(count);
    Run {
        node,
        pages: run,
        after,
    }
}

// Whether the first of the pages after a page is below the same node of this height.
pub(crate) fn shares_node(page: &(u32, Page), after: &[(u32, Page)], height: u32) -> bool
    requires { height ≤ 18 }
    ensures { result ≡ begins_below height (page.now.0 / 2 ^ height) after.now }
{
    match after.first() {
        Some(next) => next.0 >> height == page.0 >> height,
        None => false,
    }
}
