ghost use Rattle.std.specs.Prelude.{◌↔◌, IsTrue};
ghost use Rattle.guest_gen.specs.Assembly.{IsValidLine, IsLine};

use rv_isa::{Instr, encode};

/// A line of a guest's code: a word as it stands, or an instruction.
#[derive(Clone, Copy, Debug, PartialEq, Eq)]
pub enum GuestLine {
    Word(u32),
    Instr(Instr),
}

impl GuestLine {
    /// Whether it is a word, or an instruction whose registers and immediate are in their ranges.
    pub fn is_valid(&self) -> bool
        ensures { IsTrue result ↔ IsValidLine self.now }
    {
        match self {
            GuestLine::Word(_) => true,
            GuestLine::Instr(instr) => instr.is_valid(),
        }
    }

    // The word that it stands for.
    pub(crate) fn word(&self) -> u32
        requires { IsValidLine self.now }
        ensures { IsLine self.now result }
    {
        match self {
            GuestLine::Word(word) => *word,
            GuestLine::Instr(instr) => encode(instr),
        }
    }
}
