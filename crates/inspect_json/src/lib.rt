//! The JSON text of a check's report (RFC 8259), in one line: an object a report and an object an entry, with numbers for
//! counts and codes and a string of hexadecimal digits for a digest.
#![tactic(auto)]

mod report;
mod values;

pub use report::report_text;
