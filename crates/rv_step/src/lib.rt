//! One step of the machine over any bus, the uncut run, and the laws of both.
#![tactic(auto)]

mod access;
mod act;
mod acting;
mod bus;
mod decode_table;
mod doing;
mod laws;
mod limits;
mod looking;
mod open_pages;
mod outcome;
mod page_marks;
mod page_set;
mod place;
mod quick;
mod run_log;
mod stepping;
mod tape;

pub use act::Act;
pub use bus::Bus;
pub use decode_table::DecodeTable;
pub use laws::{
    acts_are_sound, run_reads_its_feet, step_halts_with_word, step_is_small, step_keeps,
    step_reads_its_foot,
};
pub use limits::{CYCLES_MAX, CYCLES_MIN, LIMIT_MAX, PAGES_MAX, PAGES_MIN};
pub use looking::{Looked, look};
pub use open_pages::OpenPages;
pub use outcome::Outcome;
pub use page_marks::PageMarks;
pub use page_set::{AllPages, PageSet};
pub use place::Core;
pub use quick::quick_steps;
pub use run_log::RunLog;
pub use stepping::{Event, Paid, StepStop, step, step_within};
pub use tape::WordTape;
