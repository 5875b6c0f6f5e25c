//! The names of files among the words of a program.
ghost use Rattle.std.specs.Prelude.{◌≡◌, ◌↔◌, [], All, map, string_bytes, IfOk, IfSome, IfNone, IsNone};
ghost use Rattle.cli_text.specs.Told.{texts, IfTold, IfUntold};
ghost use Rattle.cli_text.specs.Name.{IsName};

use byte_cursor::ItemList;
use std::alloc::{AllocError, Global};
use std::marker::Model;

/// The name of a file: a text that isn't empty. Contracts see its bytes.
#[derive(Drop)]
pub struct Name {
    text: String,
}

/// A list of names.
pub type NameList = ItemList<Name>;

impl Model for Name {
    ghost use Rattle.std.specs.Prelude.{ℕ, List, string_bytes};
    ghost use Rattle.cli_text.specs.Name.{IsName};

    ghost Value = { List ℕ };

    ghost view = { λ name. string_bytes name.text };

    ghost invariant = { λ name. IsName (string_bytes name.text) };
}

impl Name {
    /// The name that a word is; None exactly where the word is empty. An AllocError is want of
    /// memory.
    pub fn of(alloc: Global, word: &str) -> Result<Option<Name>, AllocError>
        ensures some { IfTold result (λ name. name ≡ word.now) }
        ensures name { IfTold result (λ _. IsName word.now) }
        ensures none { IfUntold result (word.now ≡ []) }
    {
        if word.is_empty() {
            return Ok(None);
        }
        let text = String::from_str(alloc, word)?;
        Ok(Some(Name { text }))
    }

    /// The text of the name.
    pub fn as_str(&self) -> &str
        ensures value { result.now ≡ self.now }
        ensures name { IsName self.now }
    {
        self.text.as_str()
    }
}

// The names that words are, in their order, if none of the words is empty.
pub(crate) fn names_of(alloc: Global, words: &[String]) -> Result<Option<NameList>, AllocError>
    ensures some { IfTold result (λ names. names.items ≡ texts words.now) }
    ensures names { IfTold result (λ _. All IsName (texts words.now)) }
    ensures none { IfUntold result (All IsName (texts words.now) → ⊥) }
{
    let mut names = NameList::new(alloc);
    for word in words {
        match Name::of(alloc, word.as_str())? {
            Some(name) => names.push(name)?,
            None => return Ok(None),
        }
    }
    Ok(Some(names))
}
