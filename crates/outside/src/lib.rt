//! What a program reads and writes, behind two traits: files by name (`Desk`) and one stream of
//! output (`Sink`). The desk and the sink in memory tell what they hold, so that a contract can
//! name it; those over the system tell nothing of it.
#![tactic(auto)]

mod kept_file;
mod mem_desk;
mod mem_sink;
mod places;
mod reading;
mod real;
mod slot;
mod stop;
mod traits;

pub use mem_desk::MemDesk;
pub use mem_sink::MemSink;
pub use reading::read_all;
pub use real::{DirDesk, StdSink};
pub use slot::{MemFile, MemFiles};
pub use stop::ReadAllStop;
pub use traits::{Desk, Failed, Sink};
