//! Where a replay begins: the open pages of a seal's tree, and the registers in them.
ghost use Rattle.std.specs.Prelude.{◌≡◌, ℕ, IfOk};
ghost use Rattle.part_tree.specs.declared.sizes.TheConstants.{HEIGHT};
ghost use Rattle.part_tree.specs.Part.{IsPart, open_numbers, page_at};
ghost use Rattle.part_tree.specs.Views.{part};
ghost use Rattle.page_core.specs.Memories.{flat};
ghost use Rattle.rv_step.specs.Opened.{page_in, pages_in};
ghost use Rattle.seal_replay.specs.Replay.{registers_in};

use page_core::{REGISTER_PAGE, TOP};
use part_tree::PartTree;
use rv_isa::Regs;
use rv_step::{Bus, OpenPages};
use std::alloc::{AllocError, Global};

// The open pages of a tree, whose numbers are given.
pub(crate) fn open_pages(
    alloc: Global,
    tree: &PartTree,
    numbers: &[u32],
) -> Result<OpenPages, AllocError>
    requires shape { IsPart HEIGHT (part tree.now) }
    requires numbers { numbers.now ≡ open_numbers 0 (part tree.now) }
    ensures { IfOk result
        (λ pages. (number : ℕ) → page_in pages number ≡ page_at 0 (part tree.now) number) }
{
    let mut pages = OpenPages::new(alloc);
    for number in numbers {
        let Some(page) = tree.page(*number) else {
            unreachable!();
        };
        pages.open(*number, page)?;
    }
    Ok(pages)
}

// The registers that the register page shows, zeros where it isn't open.
pub(crate) fn registers(pages: &OpenPages) -> Regs
    ensures { result ≡ registers_in (flat (pages_in pages.now)) }
{
    let mut regs = Regs::new();
    if !pages.is_open(REGISTER_PAGE) {
        return regs;
    }
    for n in 1..32u8 {
        regs.set(n, pages.load_word(TOP + 4 * u32::from(n)));
    }
    regs
}
