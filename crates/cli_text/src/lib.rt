//! The words of the programs over receipts and guest files, and what they print: the lines of each answer, and its status.
#![tactic(auto)]

mod audits;
mod check_words;
mod files;
mod journals;
mod name;
mod prove_words;
mod refusals;
mod reports;
mod runs;
mod status;
mod texts;
mod usages;
mod values;

pub use audits::{audit_stop_text, finding_text};
pub use check_words::{CheckJob, check_words_name_one, parse_check};
pub use files::{bad_input_text, elf_stop_text, id_text, no_file_text, too_long_text};
pub use name::{Name, NameList};
pub use prove_words::{ProveJob, parse_prove, prove_words_name_one};
pub use refusals::{bad_receipt_text, check_stop_text, no_receipt_text, too_many_entries_text};
pub use reports::{generate_text, proved_text, valid_text};
pub use runs::{faulted_text, halted_text, over_limit_text, too_many_seals_text};
pub use status::Status;
pub use usages::{check_usage, prove_usage};
pub use values::WORKERS_MAX;
