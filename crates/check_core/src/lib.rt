//! The judgement of receipts: which bundles are accepted and what stops the others, the check that decides it, what an
//! accepted bundle says of an image, and the headline: it says the truth of the image's uncut run, or two hashed
//! strings collide.
#![tactic(auto)]

mod chains;
mod checked;
mod checking;
mod judging;
mod laws;
mod linking;
mod report;
mod reporting;
mod stop;

pub use checked::Checked;
pub use checking::check;
pub use judging::{Judged, check_bundle, first_id, judge};
pub use laws::{
    accepted_unstopped, calls_hold, faithful_vouches, hashed_are_bytes, headline, headline_of_sha,
};
pub use report::{ClaimList, EntryClaim, Report};
pub use reporting::entry_report;
pub use stop::CheckStop;
