use byte_cursor::WordList;
use part_tree::PartTree;
use std::marker::Model;

/// A stretch of a run: the pc where it begins, the number of its steps, the input words that it
/// reads, and a part tree that opens the pages that it touches. Contracts see the words as a list
/// and the tree without its boxes.
#[derive(Drop)]
pub struct Seal {
    pub pc: u32,
    pub steps: u32,
    pub words: WordList,
    pub tree: PartTree,
}

impl Model for Seal {
    ghost use Rattle.receipt_types.specs.Seals as plain;
    ghost use Rattle.part_tree.specs.Views.{part};

    ghost Value = { plain.Seal };

    ghost coded = { plain.seal_code };

    ghost view = { λ s. record { pc = s.pc; steps = s.steps; words = s.words.items; tree = part s.tree } };
}
