//! The lines of runs: of one that halts, and of those that aren't proved.
ghost use Rattle.std.specs.Prelude.{◌≡◌, IfOk};
ghost use Rattle.cli_text.specs.Runs.{halted_lines, faulted_lines, over_limit_lines, too_many_seals_lines};

use crate::journals::journal_text;
use crate::texts::bytes_of;
use byte_cursor::ByteList;
use rv_isa::Fault;
use std::alloc::{AllocError, Global};

/// The lines of a run that halts: its exit code, its steps, their cost, its journal's bytes, and the number of its
/// assumption calls. An AllocError is want of memory.
pub fn halted_text(
    alloc: Global,
    code: u32,
    steps: u64,
    cycles: u64,
    journal: &[u8],
    assumptions: u64,
) -> Result<ByteList, AllocError>
    ensures { IfOk result
        (λ text. text.items ≡ halted_lines code steps cycles journal.now assumptions) }
{
    let journal = journal_text(alloc, journal)?;
    let text = format!(in alloc;
        "halted {code}\nsteps {steps}\ncycles {cycles}\njournal {journal}\nassumptions {assumptions}\n"
    )?;
    bytes_of(alloc, text.as_str())
}

/// The line of a run whose step faults at a pc. An AllocError is want of memory.
pub fn faulted_text(
    alloc: Global,
    step: u64,
    pc: u32,
    fault: &Fault,
) -> Result<ByteList, AllocError>
    ensures { IfOk result (λ text. text.items ≡ faulted_lines step pc fault.now) }
{
    let text = format!(in alloc; "faulted {step} {pc:08x} {fault}\n")?;
    bytes_of(alloc, text.as_str())
}

/// The line of a run whose step goes over the limit. An AllocError is want of memory.
pub fn over_limit_text(alloc: Global, step: u64) -> Result<ByteList, AllocError>
    ensures { IfOk result (λ text. text.items ≡ over_limit_lines step) }
{
    let text = format!(in alloc; "over-limit {step}\n")?;
    bytes_of(alloc, text.as_str())
}

/// The line of a run of more than 65,535 segments. An AllocError is want of memory.
pub fn too_many_seals_text(alloc: Global) -> Result<ByteList, AllocError>
    ensures { IfOk result (λ text. text.items ≡ too_many_seals_lines) }
{
    bytes_of(alloc, "too-many-seals\n")
}
