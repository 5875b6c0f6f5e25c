ghost use Rattle.std.specs.Prelude.{◌≡◌, Some};
ghost use Rattle.claim_types.specs.States.{halted_state};
ghost use Rattle.claim_types.specs.Text.{state_text};

use digest_core::Digest;
use std::fmt;

/// Where a run stands: its pc, and the root of its memory with its registers.
#[derive(Clone, Copy, Debug, PartialEq, Eq)]
pub struct State {
    pub pc: u32,
    pub root: Digest,
}

impl State {
    /// The fixed state after a halt: pc 0 and a root of 32 zero bytes.
    pub fn halted() -> State
        ensures { result ≡ halted_state }
    {
        State {
            pc: 0,
            root: Digest::of(&[0; 32]),
        }
    }
}

/// The pc in eight lower-case hexadecimal digits, a colon and the root.
impl fmt::Display for State {
    ghost output = { λ state. Some (state_text state) };

    #[tactic(auto, using(rv_isa::proofs::HexWords::padded_hex_word, std::proofs::Common::append_assoc))]
    fn fmt<W: fmt::Write>(&self, f: &mut fmt::Formatter<W>) -> fmt::Result {
        let pc = self.pc;
        let root = self.root;
        write!(f, "{pc:08x}:{root}")
    }
}
