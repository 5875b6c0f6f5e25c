//! How a command ends.
ghost use Rattle.std.specs.Prelude.{◌≡◌, None};
ghost use Rattle.command_frame.specs.Ends.{end_of};

use byte_cursor::ByteList;
use cli_text::{Name, Status};
use std::alloc::AllocError;

/// A file that a command writes: its name, and the bytes that it then holds.
#[derive(Drop)]
pub struct NewFile {
    pub name: Name,
    pub bytes: ByteList,
}

/// What a command tells: its status, the lines that are put, and the file that is written before them, if there is one.
#[derive(Drop)]
pub struct Answer {
    pub status: Status,
    pub lines: ByteList,
    pub file: Option<NewFile>,
}

impl Answer {
    /// An answer that writes no file.
    pub fn new(status: Status, lines: ByteList) -> Answer
        ensures { result ≡ record { status = status; lines = lines; file = None } }
    {
        Answer {
            status,
            lines,
            file: None,
        }
    }
}

/// How a command ends: it tells an answer; or it is silent, since a read failed or memory was wanting.
#[derive(Drop)]
pub enum End {
    Told(Answer),
    ReadFault,
    Memory,
}

impl From<AllocError> for End {
    ghost use Rattle.command_frame.specs.declared.end.End.TheVariants.{Memory};

    ghost from_gives = { λ _ end. end ≡ Memory };

    fn from(_error: AllocError) -> Self {
        End::Memory
    }
}

/// How a command ends whose body came to an answer, or ended before.
pub fn ended(outcome: Result<Answer, End>) -> End
    ensures { result ≡ end_of outcome }
{
    match outcome {
        Ok(answer) => End::Told(answer),
        Err(end) => end,
    }
}
