ghost use Rattle.std.specs.Prelude.{◌≡◌, ◌^◌, ◌<◌, All, IfOk};
ghost use Rattle.executor.specs.Cutting.{IsCut};

use byte_cursor::WordList;
use digest_core::Digester;
use page_tree::PageTree;
use receipt_types::Seal;
use std::alloc::{AllocError, Global};
use std::marker::Model;

/// A segment of a run: its number, and its seal, which keeps the limits of a receipt and replays without a stop.
/// Contracts see both. It shares the tree of the memory at its beginning with the run; the seal's tree is made where it is
/// asked for.
#[derive(Drop)]
pub struct Cut<D: Digester> {
    pub(crate) number: u32,
    pub(crate) pc: u32,
    pub(crate) steps: u32,
    pub(crate) words: WordList,
    // those that its steps touch, ascending, each once
    pub(crate) pages: WordList,
    pub(crate) tree: PageTree<D>,
    pub(crate) alloc: Global,
}

impl<D: Digester> Model for Cut<D> {
    ghost use Rattle.executor.specs.Cutting as plain;

    ghost Value = { plain.Cut };

    ghost coded = { plain.cut_code };

    ghost view = { λ c.
        record {
          number = c.number;
          seal = plain.seal_of D.digest_of c.pc c.steps c.words.items c.tree c.pages.items;
        } };

    ghost invariant = { λ c.
        plain.IsCut
        (record {
          number = c.number;
          seal = plain.seal_of D.digest_of c.pc c.steps c.words.items c.tree c.pages.items;
        })
        × plain.AreOpened c.pages.items };
}

// A list of these words.
pub(crate) fn copied(alloc: Global, words: &[u32]) -> Result<WordList, AllocError>
    ensures items { IfOk result (λ list. list.items ≡ words.now) }
    ensures are_words { IfOk result (λ list. All (λ word. word < 2 ^ 32) list.items) }
{
    let mut list = WordList::new(alloc);
    list.extend(words)?;
    Ok(list)
}

impl<D: Digester> Cut<D> {
    /// The number of its segment; a run's segments are numbered from 0. It takes no memory.
    pub fn number(&self) -> u32
        ensures { result ≡ self.now.number }
    {
        self.number
    }

    /// The seal. An AllocError is want of memory.
    pub fn open(&self) -> Result<Seal, AllocError>
        ensures seal { IfOk result (λ seal. seal ≡ self.now.seal) }
        ensures is_cut { IsCut self.now }
    {
        let words = copied(self.alloc, self.words.as_slice())?;
        let tree = self.tree.open(self.pages.as_slice())?;
        Ok(Seal {
            pc: self.pc,
            steps: self.steps,
            words,
            tree,
        })
    }
}
