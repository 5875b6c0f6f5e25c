//! The audit of a receipt's entry against a guest's image: that the entry says the truth of the image's uncut run, or
//! two unequal strings with one digest, and the place where they stand.
#![tactic(auto)]

mod auditing;
mod disagreement;
mod finding;
mod linked;
mod stop;
mod strings;
mod walk;

ghost use Rattle.audit.specs.Laws.{PlacesHavePairs};

pub use auditing::{audit, audit_place};
use digest_core::Digester;
pub use disagreement::Place;
pub use finding::Finding;
pub use stop::AuditStop;

/// There is a first place exactly where there is a first pair, and the pair has the strings that stand there: the left
/// one is the receipt's, the right one the image's.
pub fn place_laws<D: Digester>()
    ensures { PlacesHavePairs D.digest_of }
{}
