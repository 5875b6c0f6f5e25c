ghost use Rattle.std.specs.Prelude.{◌≡◌, ◌+◌, ◌≤◌, take, drop, length};

use byte_cursor::WordList;
use std::marker::Model;

/// The input words of a run, and how many of them its READs have taken. Contracts see both.
#[derive(Drop)]
pub struct WordTape {
    words: WordList,
    used: usize,
}

impl Model for WordTape {
    ghost use Rattle.std.specs.Prelude.{◌≤◌, length};
    ghost use Rattle.rv_step.specs.Tapes.{Tape};

    ghost Value = { Tape };

    ghost view = { λ t. record { words = t.words.items; used = t.used } };

    ghost invariant = { λ t. t.used ≤ length t.words.items };
}

impl WordTape {
    /// A tape of these words, of which none was taken.
    pub fn new(words: WordList) -> WordTape
        ensures { result ≡ record { words = words.items; used = 0 } }
    {
        WordTape { words, used: 0 }
    }

    /// How many words were taken.
    pub fn used(&self) -> usize
        ensures value { result ≡ self.now.used }
        ensures bound { self.now.used ≤ length self.now.words }
    {
        self.used
    }

    /// The words that were taken.
    pub fn taken(&self) -> &[u32]
        ensures { result.now ≡ take self.now.used self.now.words }
    {
        &self.words.as_slice()[..self.used]
    }

    /// The words that are left.
    pub fn rest(&self) -> &[u32]
        ensures { result.now ≡ drop self.now.used self.now.words }
    {
        &self.words.as_slice()[self.used..]
    }

    // Takes the next words, of which so many are left.
    pub(crate) fn skip(&mut self, count: usize)
        requires { count ≤ length (drop self.old.used self.old.words) }
        ensures { self.new ≡ record { words = self.old.words; used = self.old.used + count } }
    {
        let left = self.rest().len() - count;
        self.used = self.words.len() - left;
    }
}
