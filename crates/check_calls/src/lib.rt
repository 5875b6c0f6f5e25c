//! The public call that answers the words of `zk_check`: it checks a receipt under an image id, audits it against a
//! guest's image, prints the id of a guest's image, and prints the claims of a receipt.
#![tactic(auto)]

mod audit_receipt;
mod check;
mod id;
mod inspect;
mod top;

pub use top::check_top;
