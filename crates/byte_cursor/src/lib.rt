//! Lists that contracts see as lists, and little-endian numbers read from bytes and written to
//! them.
#![tactic(auto)]

mod cursor;
mod item_list;
mod out;

pub use cursor::Cursor;
pub use item_list::{ByteList, ItemList, WordList};
pub use out::Out;
