use host_calls::Call;
use rv_isa::{Fault, LoadOp, StoreOp};

/// What an instruction does, by the pc and the registers alone.
#[derive(Clone, Copy, Debug)]
pub enum Act {
    /// Goes on at a pc, with a value in a register; x0 takes none.
    Sets {
        pc: u32,
        rd: u8,
        value: u32,
    },
    /// From an address into a register.
    Loads {
        op: LoadOp,
        rd: u8,
        address: u32,
    },
    /// A value to an address.
    Stores {
        op: StoreOp,
        address: u32,
        value: u32,
    },
    /// A host call.
    Does(Call),
    /// Nothing: the step faults.
    Faults(Fault),
}
