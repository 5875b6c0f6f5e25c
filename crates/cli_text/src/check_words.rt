//! The words of the checker.
ghost use Rattle.std.specs.Prelude.{◌≡◌, ◌≢◌, ℕ, ◌<◌, ◌^◌, List, [], ◌∷◌, map, string_bytes, codes, decimal, IfOk, IfSome, IfNone};
ghost use Rattle.cli_text.specs.Told.{texts, IfTold, IfUntold};
ghost use Rattle.cli_text.specs.CheckWords.{NamesCheck, NamesNoCheck, OneCheckJob};
ghost use Rattle.cli_text.specs.Values.{IsId};

use crate::name::Name;
use crate::values::{entry_of, id_of};
use digest_core::Digest;
use std::alloc::{AllocError, Global};

/// What the words of the checker ask for.
#[derive(Drop)]
pub enum CheckJob {
    /// A check of a receipt under an id.
    Check {
        receipt: Name,
        id: Digest,
    },
    /// A check of a receipt under an id, with the bytes of its journal put into a file.
    CheckInto {
        receipt: Name,
        id: Digest,
        journal: Name,
    },
    /// An audit of an entry of a receipt against the guest in an ELF file.
    Audit {
        receipt: Name,
        entry: u16,
        elf: Name,
    },
    /// The id of the guest in an ELF file.
    Id {
        elf: Name,
    },
    /// A description of a receipt.
    Inspect {
        receipt: Name,
    },
}

/// The job that the words name; None exactly where they name none. An AllocError is want of memory.
pub fn parse_check(alloc: Global, words: &[String]) -> Result<Option<CheckJob>, AllocError>
    ensures some { IfTold result (NamesCheck (texts words.now)) }
    ensures none { IfUntold result (NamesNoCheck (texts words.now)) }
{
    let Some((command, rest)) = words.split_first() else {
        return Ok(None);
    };
    let command = command.as_str();
    if command == "check" {
        return check_row(alloc, rest);
    }
    if command == "audit" {
        return audit_row(alloc, rest);
    }
    if command == "id" {
        return id_row(alloc, rest);
    }
    if command == "inspect" {
        return inspect_row(alloc, rest);
    }
    Ok(None)
}

// The job of `check RECEIPT ID` or `check RECEIPT ID JOURNALFILE`, by the words after the first.
fn check_row(alloc: Global, rest: &[String]) -> Result<Option<CheckJob>, AllocError>
    ensures some { IfTold result (NamesCheck (codes "check" ∷ texts rest.now)) }
    ensures none { IfUntold result (NamesNoCheck (codes "check" ∷ texts rest.now)) }
{
    match rest {
        [receipt, id] => check_job(alloc, receipt.as_str(), id.as_str()),
        [receipt, id, journal] => {
            check_into_job(alloc, receipt.as_str(), id.as_str(), journal.as_str())
        }
        _ => Ok(None),
    }
}

// The job of `check RECEIPT ID`.
fn check_job(alloc: Global, receipt: &str, id: &str) -> Result<Option<CheckJob>, AllocError>
    ensures some { IfTold result (NamesCheck (codes "check" ∷ receipt.now ∷ id.now ∷ [])) }
    ensures none { IfUntold result (NamesNoCheck (codes "check" ∷ receipt.now ∷ id.now ∷ [])) }
{
    let (Some(receipt), Some(id)) = (Name::of(alloc, receipt)?, id_of(id)) else {
        return Ok(None);
    };
    Ok(Some(CheckJob::Check { receipt, id }))
}

// The job of `check RECEIPT ID JOURNALFILE`.
fn check_into_job(
    alloc: Global,
    receipt: &str,
    id: &str,
    journal: &str,
) -> Result<Option<CheckJob>, AllocError>
    ensures some { IfTold result
        (NamesCheck (codes "check" ∷ receipt.now ∷ id.now ∷ journal.now ∷ [])) }
    ensures none { IfUntold result
        (NamesNoCheck (codes "check" ∷ receipt.now ∷ id.now ∷ journal.now ∷ [])) }
{
    let (Some(receipt), Some(id), Some(journal)) = (
        Name::of(alloc, receipt)?,
        id_of(id),
        Name::of(alloc, journal)?,
    ) else {
        return Ok(None);
    };
    Ok(Some(CheckJob::CheckInto {
        receipt,
        id,
        journal,
    }))
}

// The job of `audit RECEIPT ENTRY ELF`, by the words after the first.
fn audit_row(alloc: Global, rest: &[String]) -> Result<Option<CheckJob>, AllocError>
    ensures some { IfTold result (NamesCheck (codes "audit" ∷ texts rest.now)) }
    ensures none { IfUntold result (NamesNoCheck (codes "audit" ∷ texts rest.now)) }
{
    let [receipt, entry, elf] = rest else {
        return Ok(None);
    };
    let (Some(receipt), Some(entry), Some(elf)) = (
        Name::of(alloc, receipt.as_str())?,
        entry_of(alloc, entry.as_str())?,
        Name::of(alloc, elf.as_str())?,
    ) else {
        return Ok(None);
    };
    Ok(Some(CheckJob::Audit {
        receipt,
        entry,
        elf,
    }))
}

// The job of `id ELF`, by the words after the first.
fn id_row(alloc: Global, rest: &[String]) -> Result<Option<CheckJob>, AllocError>
    ensures some { IfTold result (NamesCheck (codes "id" ∷ texts rest.now)) }
    ensures none { IfUntold result (NamesNoCheck (codes "id" ∷ texts rest.now)) }
{
    let [elf] = rest else {
        return Ok(None);
    };
    match Name::of(alloc, elf.as_str())? {
        Some(elf) => Ok(Some(CheckJob::Id { elf })),
        None => Ok(None),
    }
}

// The job of `inspect RECEIPT`, by the words after the first.
fn inspect_row(alloc: Global, rest: &[String]) -> Result<Option<CheckJob>, AllocError>
    ensures some { IfTold result (NamesCheck (codes "inspect" ∷ texts rest.now)) }
    ensures none { IfUntold result (NamesNoCheck (codes "inspect" ∷ texts rest.now)) }
{
    let [receipt] = rest else {
        return Ok(None);
    };
    match Name::of(alloc, receipt.as_str())? {
        Some(receipt) => Ok(Some(CheckJob::Inspect { receipt })),
        None => Ok(None),
    }
}

/// Words name at most one job.
pub fn check_words_name_one()
    ensures { OneCheckJob }
{}
