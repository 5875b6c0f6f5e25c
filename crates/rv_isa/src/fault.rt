ghost use Rattle.std.specs.Prelude.{Some};
ghost use Rattle.rv_isa.specs.Text.{fault_text};

use std::fmt;

/// Why a step can't be done. A step that faults changes nothing.
#[derive(Clone, Copy, Debug, PartialEq, Eq)]
pub enum Fault {
    /// The fetched word is no instruction.
    Illegal(u32),
    /// A fetch, a load or a store at or above the register page, with its address; or a host call's range of at least one
    /// byte that ends above the register page's first address, with the range's first address.
    BadAddress(u32),
    /// A halfword access at an odd address, or a word access at one that is no multiple of 4.
    Misaligned(u32),
    /// A jump or a taken branch to an address that is no multiple of 4.
    BadTarget(u32),
    /// EBREAK.
    Break,
    /// ECALL with a number that is no host call's.
    BadCall(u32),
    /// A host call, by its number, whose argument rule is broken.
    BadArgs(u32),
    /// READ of more words than are left.
    InputEnd,
}

/// Words and addresses have eight lower-case hexadecimal digits, the numbers of calls are decimal.
impl fmt::Display for Fault {
    ghost output = { λ fault. Some (fault_text fault) };

    #[tactic(auto, using(crate::proofs::HexWords::padded_hex_word))]
    fn fmt<W: fmt::Write>(&self, f: &mut fmt::Formatter<W>) -> fmt::Result {
        match *self {
            Fault::Illegal(word) => write!(f, "illegal {word:08x}"),
            Fault::BadAddress(address) => write!(f, "bad-address {address:08x}"),
            Fault::Misaligned(address) => write!(f, "misaligned {address:08x}"),
            Fault::BadTarget(address) => write!(f, "bad-target {address:08x}"),
            Fault::Break => f.write_str("break"),
            Fault::BadCall(number) => write!(f, "bad-call {number}"),
            Fault::BadArgs(number) => write!(f, "bad-args {number}"),
            Fault::InputEnd => f.write_str("input-end"),
        }
    }
}
