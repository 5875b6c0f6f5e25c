//! Receipts as data: seals, entries and bundles, their limits, and their bytes.
#![tactic(auto)]

ghost use Rattle.receipt_types.specs.Laws.{LimitsGiveForm, SpelledByRules};

mod bundle;
mod seal;
mod sizes;

pub use bundle::{Bundle, Entry, EntryList, LinkList, SealList};
pub use seal::Seal;
pub use sizes::{MOST_ENTRIES, MOST_LINKS, MOST_SEALS, MOST_STEPS, MOST_WORDS};

/// A bundle that keeps the limits of a receipt has the form of a bundle.
pub fn limits_give_form()
    ensures { LimitsGiveForm }
{}

/// Bytes spell a bundle exactly where they do so by the rules of the grammar.
pub fn spelled_by_rules()
    ensures { SpelledByRules }
{}
