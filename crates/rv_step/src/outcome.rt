use rv_isa::Fault;

/// How a run ends under a limit on the sum of its steps' costs. Steps are numbered from 0.
#[derive(Clone, Copy, Debug, PartialEq, Eq)]
pub enum Outcome {
    /// A step halts with this exit code, within the limit.
    Halted(u32),
    /// This step, at this pc, faults, within the limit.
    Faulted { fault: Fault, pc: u32, step: u64 },
    /// This step, with those before it, costs more than the limit. It isn't done.
    OverLimit { step: u64 },
}
