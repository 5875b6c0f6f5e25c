//! The frame in which each command stands: how it ends, the files that it reads, and what it writes and puts.
#![tactic(auto)]

mod arguments;
mod end;
mod images;
mod putting;
mod reading;

pub use arguments::words;
pub use end::{Answer, End, NewFile, ended};
pub use images::{load_image, read_image};
pub use putting::put_end;
pub use reading::{MOST_ELF_BYTES, MOST_INPUT_BYTES, MOST_RECEIPT_BYTES, read_file};
