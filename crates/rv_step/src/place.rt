use rv_isa::Regs;

/// Where the machine is: its pc, an address that is a multiple of 4, and its registers.
#[derive(Clone, Copy, Debug)]
pub struct Core {
    pub pc: u32,
    pub regs: Regs,
}
