ghost use Rattle.std.specs.Prelude.{◌≡◌};
ghost use Rattle.cli_text.specs.Numbers.{number_of};

/// How the program ended.
#[derive(Clone, Copy, Debug, PartialEq, Eq)]
pub enum Status {
    Done,
    Refused,
    Words,
    ReadFault,
    WriteFault,
    Memory,
    NoFile,
    TooLong,
    BadFile,
    Collision,
}

impl Status {
    /// The exit status, 0 to 9 in the order of the variants.
    pub fn number(&self) -> u8
        ensures { result ≡ number_of self.now }
    {
        match self {
            Status::Done => 0,
            Status::Refused => 1,
            Status::Words => 2,
            Status::ReadFault => 3,
            Status::WriteFault => 4,
            Status::Memory => 5,
            Status::NoFile => 6,
            Status::TooLong => 7,
            Status::BadFile => 8,
            Status::Collision => 9,
        }
    }
}
