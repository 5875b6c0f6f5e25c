ghost use Rattle.std.specs.Prelude.{◌≡◌, ◌≢◌, ℕ, ◌+◌, ◌*◌, ◌-◌, ◌<◌, ◌≤◌, ◌^◌, ◌++◌, [], length, get_or};
ghost use Rattle.page_core.specs.Pages.{Pages};
ghost use Rattle.part_tree.specs.Tree.{node};
ghost use Rattle.page_tree.specs.Blocks.{place_of, zero_node, LevelIs, DigestsAre};
ghost use Rattle.page_tree.specs.Changes.{Untouched};

use crate::runs::shares_node;
use crate::steps::Steps;
use crate::zeros::ZeroNodes;
use digest_core::{Digest, Digester};
use page_core::Page;
use std::sync::ledger::Ledger;

// The digest of a page, counted.
pub(crate) fn page_digest<D: Digester, L: Ledger>(page: &Page, steps: &mut Steps<L>) -> Digest
    ensures digest { result ≡ D.digest_of page.now }
    ensures counted { steps.new ≡ steps.old + 1 }
{
    steps.tick();
    digest_core::hash::<D>(page.bytes())
}

// The digest of a node over two digests, counted.
fn node_digest<D: Digester, L: Ledger>(
    left: &Digest,
    right: &Digest,
    steps: &mut Steps<L>,
) -> Digest
    ensures digest { result ≡ D.digest_of (left.now ++ right.now) }
    ensures counted { steps.new ≡ steps.old + 1 }
{
    steps.tick();
    digest_core::node::<D>(left, right)
}

// The place of a node of a block, by its height there and its number.
pub(crate) fn place(height: u32, index: u32) -> usize
    requires { height ≤ 5 }
    ensures place { result ≡ place_of height index }
    ensures most { result < 128 }
    ensures inner { 1 ≤ height → result < 64 }
{
    let width = nodes_of(height);
    (width + index % width) as usize
}

// How many nodes of a block have this height there.
fn nodes_of(height: u32) -> u32
    requires { height ≤ 6 }
    ensures { result ≡ 2 ^ (6 - height) }
{
    1 << (6 - height)
}

// The digests of a block without a child, whose children have 2^base pages.
pub(crate) fn zero_digests<D: Digester>(zeros: &ZeroNodes<D>, base: u32) -> [Digest; 128]
    requires { base ≤ 12 }
    ensures { (k x : ℕ) → k < 6 →
        get_or result (place_of k x) [] ≡ zero_node D.digest_of (base + k) }
{
    let mut digests = [zeros.at(base); 128];
    for height in 0..6 {
        let digest = zeros.at(base + height);
        let first = nodes_of(height) as usize;
        for at in first..2 * first {
            digests[at] = digest;
        }
    }
    digests
}

// Computes the digests over children of which those with these pages below are new, each once, and answers that of
// the block.
pub(crate) fn refresh<D: Digester, L: Ledger>(
    digests: &mut [Digest; 128],
    base: u32,
    pages: &[(u32, Page)],
    steps: &mut Steps<L>,
) -> Digest
    requires low { base ≤ 12 }
    requires some { 1 ≤ length pages.now }
    ensures digests { (m : Pages) → LevelIs D.digest_of m base 0 digests.old →
        ((k x : ℕ) → 1 ≤ k → k < 6 → Untouched base k x pages.now →
        get_or digests.old (place_of k x) [] ≡ node D.digest_of m (base + k) x) →
        DigestsAre D.digest_of m base digests.new }
    ensures digest { (m : Pages) → DigestsAre D.digest_of m base digests.new →
        (x : ℕ) → result ≡ node D.digest_of m (base + 6) x }
    ensures rises { steps.old ≤ steps.new }
    ensures cost { steps.new ≤ steps.old + 6 * length pages.now }
{
    for height in 1..6 {
        refresh_height::<D, L>(digests, base, height, pages, steps);
    }
    node_digest::<D, L>(&digests[2], &digests[3], steps)
}

// Computes the digests of one height over these pages.
fn refresh_height<D: Digester, L: Ledger>(
    digests: &mut [Digest; 128],
    base: u32,
    height: u32,
    pages: &[(u32, Page)],
    steps: &mut Steps<L>,
)
    requires low { base ≤ 12 }
    requires some { 1 ≤ height }
    requires most { height ≤ 5 }
    ensures level { (m : Pages) → LevelIs D.digest_of m base (height - 1) digests.old →
        ((x : ℕ) → Untouched base height x pages.now →
        get_or digests.old (place_of height x) [] ≡ node D.digest_of m (base + height) x) →
        LevelIs D.digest_of m base height digests.new }
    ensures others { (k x : ℕ) → k < 6 → k ≢ height →
        get_or digests.new (place_of k x) [] ≡ get_or digests.old (place_of k x) [] }
    ensures long { length digests.new ≡ 128 }
    ensures rises { steps.old ≤ steps.new }
    ensures cost { steps.new ≤ steps.old + length pages.now }
{
    let mut rest = pages;
    while let Some((page, after)) = rest.split_first() {
        rest = after;
        if !shares_node(page, after, base + height) {
            let at = place(height, page.0 >> (base + height));
            let left = digests[2 * at];
            let right = digests[2 * at + 1];
            digests[at] = node_digest::<D, L>(&left, &right, steps);
        }
    }
}
