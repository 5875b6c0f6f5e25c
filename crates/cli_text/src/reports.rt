//! The lines of a report.
ghost use Rattle.std.specs.Prelude.{◌≡◌, string_bytes, sum_by, IfOk};
ghost use Rattle.cli_text.specs.Reports.{claims_lines, counts_lines, report_lines, valid_lines, proved_lines, generated_lines};

use crate::journals::journal_text;
use crate::texts::bytes_of;
use byte_cursor::ByteList;
use check_core::{EntryClaim, Report};
use std::alloc::{AllocError, Global};

/// The lines of the answer valid, for the report of a bundle. An AllocError is want of memory.
pub fn valid_text(alloc: Global, report: &Report) -> Result<ByteList, AllocError>
    ensures { IfOk result (λ text. text.items ≡ valid_lines report.now) }
{
    let told = report_text(alloc, report)?;
    let text = format!(in alloc; "valid\n{told}")?;
    bytes_of(alloc, text.as_str())
}

/// The lines of a receipt that was made, for the report of its bundle and the number of its bytes. An AllocError is want of
/// memory.
pub fn proved_text(alloc: Global, report: &Report, bytes: u64) -> Result<ByteList, AllocError>
    ensures { IfOk result (λ text. text.items ≡ proved_lines report.now bytes) }
{
    let text = made_text(alloc, report, bytes)?;
    bytes_of(alloc, text.as_str())
}

/// The lines of a receipt that was made of a generated guest: the numbers that generate it, the bytes of its ELF file, the
/// words of its input, and what its run costs, before those of the receipt. An AllocError is want of memory.
pub fn generate_text(
    alloc: Global,
    number: u64,
    size: u32,
    elf: u64,
    words: u64,
    cycles: u64,
    report: &Report,
    bytes: u64,
) -> Result<ByteList, AllocError>
    ensures { IfOk result
        (λ text. text.items ≡ generated_lines number size elf words cycles report.now bytes) }
{
    let made = made_text(alloc, report, bytes)?;
    let text = format!(in alloc;
        "generated {number} {size}\nelf {elf}\ninput {words}\ncycles {cycles}\n{made}"
    )?;
    bytes_of(alloc, text.as_str())
}

// The lines of a receipt that was made, of so many bytes.
fn made_text(alloc: Global, report: &Report, bytes: u64) -> Result<String, AllocError>
    ensures { IfOk result (λ text. string_bytes text ≡ proved_lines report.now bytes) }
{
    let told = report_text(alloc, report)?;
    format!(in alloc; "proved\n{told}bytes {bytes}\n")
}

// The lines of a report.
fn report_text(alloc: Global, report: &Report) -> Result<String, AllocError>
    ensures { IfOk result
        (λ text. string_bytes text ≡ report_lines report.now.journal report.now.entries) }
{
    let entries = report.entries.as_slice();
    let Some(first) = entries.first() else {
        return Ok(String::new(alloc));
    };
    let claims = claims_text(alloc, report.journal.as_slice(), first)?;
    let counts = counts_text(alloc, entries)?;
    format!(in alloc; "{claims}{counts}")
}

// The lines that say what was proved.
fn claims_text(alloc: Global, journal: &[u8], first: &EntryClaim) -> Result<String, AllocError>
    ensures { IfOk result (λ text. string_bytes text ≡ claims_lines journal.now first.now) }
{
    let code = first.exit;
    let told = journal_text(alloc, journal)?;
    let claim = first.claim;
    let conditional = first.conditional;
    format!(in alloc; "exit {code}\njournal {told}\nclaim {claim}\nconditional {conditional}\n")
}

// The lines that say how much it was.
fn counts_text(alloc: Global, entries: &[EntryClaim]) -> Result<String, AllocError>
    ensures { IfOk result (λ text. string_bytes text ≡ counts_lines entries.now) }
{
    let count = entries.len();
    let seals = seals_of(entries);
    let steps = steps_of(entries);
    format!(in alloc; "entries {count}\nseals {seals}\nsteps {steps}\n")
}

// The number of the seals of all entries.
fn seals_of(entries: &[EntryClaim]) -> u128
    ensures { result ≡ sum_by (λ entry. entry.seals) entries.now }
{
    let mut seals = 0u128;
    for entry in entries {
        seals += u128::from(entry.seals);
    }
    seals
}

// The number of the steps of all entries.
fn steps_of(entries: &[EntryClaim]) -> u128
    ensures { result ≡ sum_by (λ entry. entry.steps) entries.now }
{
    let mut steps = 0u128;
    for entry in entries {
        steps += u128::from(entry.steps);
    }
    steps
}
