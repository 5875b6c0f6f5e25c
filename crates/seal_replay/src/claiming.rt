//! What a seal claims.
ghost use Rattle.std.specs.Prelude.{◌≡◌, ℕ, ◌-◌, ◌%◌, ◌^◌, ◌<◌, ◌≤◌, ◌⊎◌, Some, IfOk, IfErr, IsTrue, is_some};
ghost use Rattle.page_core.specs.Memory.{is_among};
ghost use Rattle.page_core.specs.Memories.{flat, page_of};
ghost use Rattle.part_tree.specs.Part.{IsPart, root_of, open_numbers, put_part};
ghost use Rattle.part_tree.specs.Views.{part};
ghost use Rattle.rv_step.specs.Machine.{full_of};
ghost use Rattle.rv_step.specs.Opened.{page_in, pages_in};
ghost use Rattle.seal_replay.specs.declared.stop.ReplayStop.TheVariants.{Memory};
ghost use Rattle.seal_replay.specs.Claiming.{claim_of};
ghost use Rattle.seal_replay.specs.Replay.{stop_of};
ghost use Rattle.part_tree.specs.declared.sizes.TheConstants.{HEIGHT};

use crate::replaying::{Replayed, replay_to_end};
use crate::stop::ReplayStop;
use claim_types::{Exit, SpanClaim, State};
use digest_core::{Digest, Digester, hash, node};
use page_core::{REGISTER_PAGE, TOP};
use part_tree::{HEIGHT, PartTree};
use receipt_types::Seal;
use rv_isa::Regs;
use rv_step::{Bus, OpenPages, RunLog};
use std::alloc::Global;

/// Replays a seal, whose pc is a multiple of 4 and whose tree has its shape, over the pages that its
/// tree opens, and answers what it claims. The registers are those of the register page. Ok and each
/// stop but Memory come exactly where the definition of the stops says so. Memory is taken for the
/// open pages, the journal and the assumption calls.
pub fn replay<D: Digester>(alloc: Global, seal: &Seal) -> Result<SpanClaim, ReplayStop>
    requires aligned { seal.now.pc % 4 ≡ 0 }
    requires shape { IsPart HEIGHT seal.now.tree }
    ensures claim { IfOk result (λ claim. claim_of D.digest_of seal.now ≡ Some claim) }
    ensures stop { IfErr result (λ stop. (stop ≡ Memory) ⊎ (stop_of seal.now ≡ Some stop)) }
{
    let Replayed {
        exit,
        core,
        pages,
        log,
    } = replay_to_end(alloc, seal)?;
    let before = State {
        pc: seal.pc,
        root: seal.tree.root::<D>(),
    };
    let after = match exit {
        Exit::Split => State {
            pc: core.pc,
            root: root_after::<D>(&seal.tree, &core.regs, pages),
        },
        Exit::Halted(_) => State::halted(),
    };
    let RunLog { journal, calls } = log;
    Ok(SpanClaim {
        before,
        after,
        exit,
        journal,
        calls,
    })
}

// The root of a tree with these pages in its open pages, once the registers are written into them.
fn root_after<D: Digester>(tree: &PartTree, regs: &Regs, mut pages: OpenPages) -> Digest
    requires shape { IsPart HEIGHT (part tree.now) }
    requires open { (n : ℕ) →
        is_some (page_in pages n) ≡ is_among (open_numbers 0 (part tree.now)) n }
    ensures { result
        ≡ root_of D.digest_of (put_part 0 (part tree.now)
        (page_of (full_of (flat (pages_in pages)) regs.now))) }
{
    write_registers(&mut pages, regs);
    node_after::<D>(tree, &pages, HEIGHT, 0)
}

// Writes x1 to x31 into the register page, where it is open.
fn write_registers(pages: &mut OpenPages, regs: &Regs)
    ensures open { (n : ℕ) → is_some (page_in pages.new n) ≡ is_some (page_in pages.old n) }
    ensures bytes { (n : ℕ) → IsTrue (is_some (page_in pages.old n)) →
        page_of (flat (pages_in pages.new)) n ≡ page_of (full_of (flat (pages_in pages.old))
        regs.now) n }
{
    write_words(pages, *regs);
}

// The same by value: then it is known that there are 32 registers.
fn write_words(pages: &mut OpenPages, regs: Regs)
    ensures open { (n : ℕ) → is_some (page_in pages.new n) ≡ is_some (page_in pages.old n) }
    ensures bytes { (n : ℕ) → IsTrue (is_some (page_in pages.old n)) →
        page_of (flat (pages_in pages.new)) n ≡ page_of (full_of
        (flat (pages_in pages.old)) regs) n }
{
    if !pages.is_open(REGISTER_PAGE) {
        return;
    }
    for n in 1..32u8 {
        pages.store_word(TOP + 4 * u32::from(n), regs.get(n));
    }
}

// The digest of a node of a tree with these pages' bytes in its open pages.
fn node_after<D: Digester>(tree: &PartTree, pages: &OpenPages, height: u32, index: u32) -> Digest
    requires shape { IsPart height (part tree.now) }
    requires low { height ≤ HEIGHT }
    requires fits { index < 2 ^ (HEIGHT - height) }
    ensures { result
        ≡ root_of D.digest_of (put_part index (part tree.now)
        (page_of (flat (pages_in pages.now)))) }
{
    match tree {
        PartTree::Pruned(digest) => *digest,
        PartTree::Branch(left, right) => {
            let left_digest = node_after::<D>(left, pages, height - 1, 2 * index);
            let right_digest = node_after::<D>(right, pages, height - 1, 2 * index + 1);
            node::<D>(&left_digest, &right_digest)
        }
        PartTree::Leaf(_) => match pages.page(index) {
            Some(page) => hash::<D>(page.bytes()),
            None => hash::<D>(&[0; 1024]),
        },
    }
}
