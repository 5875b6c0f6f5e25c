//! The words of the prover.
ghost use Rattle.std.specs.Prelude.{◌≡◌, ◌≢◌, ℕ, ◌<◌, ◌^◌, List, [], ◌∷◌, All, map, string_bytes, codes, decimal, IfOk, IfSome, IfNone};
ghost use Rattle.cli_text.specs.Told.{texts, IfTold, IfUntold};
ghost use Rattle.cli_text.specs.Name.{IsName};
ghost use Rattle.cli_text.specs.ProveWords.{NamesProve, NamesNoProve, OneProveJob};

use crate::name::{Name, NameList, names_of};
use crate::values::{cycle_limit_of, limit_of, number_of, page_limit_of, size_of, workers_of};
use std::alloc::{AllocError, Global};

/// What the words of the prover ask for.
#[derive(Drop)]
pub enum ProveJob {
    /// A proof of the run of the guest in an ELF file on the words of an input file, with the
    /// default limits.
    ProveDefault {
        elf: Name,
        input: Name,
        receipt: Name,
    },
    /// A proof of such a run under limits, with other receipts for the calls that it assumes.
    Prove {
        elf: Name,
        input: Name,
        receipt: Name,
        cycles: u32,
        pages: u32,
        limit: u64,
        workers: u8,
        others: NameList,
    },
    /// Such a run alone, under a limit on its cost.
    Exec {
        elf: Name,
        input: Name,
        limit: u64,
    },
    /// A proof of the run of a generated guest on generated words.
    Generate {
        number: u64,
        size: u32,
        cycles: u32,
        pages: u32,
        workers: u8,
    },
}

/// The job that the words name; None exactly where they name none. An AllocError is want of memory.
pub fn parse_prove(alloc: Global, words: &[String]) -> Result<Option<ProveJob>, AllocError>
    ensures some { IfTold result (NamesProve (texts words.now)) }
    ensures none { IfUntold result (NamesNoProve (texts words.now)) }
{
    let Some((command, rest)) = words.split_first() else {
        return Ok(None);
    };
    let command = command.as_str();
    if command == "prove" {
        return prove_row(alloc, rest);
    }
    if command == "exec" {
        return exec_row(alloc, rest);
    }
    if command == "generate" {
        return generate_row(alloc, rest);
    }
    Ok(None)
}

// The job of `prove ELF INPUT RECEIPT`, with limits or without, by the words after the first.
fn prove_row(alloc: Global, rest: &[String]) -> Result<Option<ProveJob>, AllocError>
    ensures some { IfTold result (NamesProve (codes "prove" ∷ texts rest.now)) }
    ensures none { IfUntold result (NamesNoProve (codes "prove" ∷ texts rest.now)) }
{
    let [elf, input, receipt, limits @ ..] = rest else {
        return Ok(None);
    };
    let (Some(elf), Some(input), Some(receipt)) = (
        Name::of(alloc, elf.as_str())?,
        Name::of(alloc, input.as_str())?,
        Name::of(alloc, receipt.as_str())?,
    ) else {
        return Ok(None);
    };
    prove_job(alloc, elf, input, receipt, limits)
}

// The job of `prove` with these names, by the words after them: none, or `CYCLES PAGES LIMIT WORKERS`
// and other names.
fn prove_job(
    alloc: Global,
    elf: Name,
    input: Name,
    receipt: Name,
    rest: &[String],
) -> Result<Option<ProveJob>, AllocError>
    ensures some { IfTold result
        (NamesProve (codes "prove" ∷ elf ∷ input ∷ receipt ∷ texts rest.now)) }
    ensures none { IfUntold result
        (NamesNoProve (codes "prove" ∷ elf ∷ input ∷ receipt ∷ texts rest.now)) }
{
    if rest.is_empty() {
        return Ok(Some(ProveJob::ProveDefault {
            elf,
            input,
            receipt,
        }));
    }
    let [cycles, pages, limit, workers, others @ ..] = rest else {
        return Ok(None);
    };
    let (Some(cycles), Some(pages), Some(limit), Some(workers), Some(others)) = (
        cycle_limit_of(alloc, cycles.as_str())?,
        page_limit_of(alloc, pages.as_str())?,
        limit_of(alloc, limit.as_str())?,
        workers_of(alloc, workers.as_str())?,
        names_of(alloc, others)?,
    ) else {
        return Ok(None);
    };
    Ok(Some(ProveJob::Prove {
        elf,
        input,
        receipt,
        cycles,
        pages,
        limit,
        workers,
        others,
    }))
}

// The job of `exec ELF INPUT LIMIT`, by the words after the first.
fn exec_row(alloc: Global, rest: &[String]) -> Result<Option<ProveJob>, AllocError>
    ensures some { IfTold result (NamesProve (codes "exec" ∷ texts rest.now)) }
    ensures none { IfUntold result (NamesNoProve (codes "exec" ∷ texts rest.now)) }
{
    let [elf, input, limit] = rest else {
        return Ok(None);
    };
    let (Some(elf), Some(input), Some(limit)) = (
        Name::of(alloc, elf.as_str())?,
        Name::of(alloc, input.as_str())?,
        limit_of(alloc, limit.as_str())?,
    ) else {
        return Ok(None);
    };
    Ok(Some(ProveJob::Exec { elf, input, limit }))
}

// The job of `generate NUMBER SIZE CYCLES PAGES WORKERS`, by the words after the first.
fn generate_row(alloc: Global, rest: &[String]) -> Result<Option<ProveJob>, AllocError>
    ensures some { IfTold result (NamesProve (codes "generate" ∷ texts rest.now)) }
    ensures none { IfUntold result (NamesNoProve (codes "generate" ∷ texts rest.now)) }
{
    let [number, size, cycles, pages, workers] = rest else {
        return Ok(None);
    };
    let (Some(number), Some(size), Some(cycles), Some(pages), Some(workers)) = (
        number_of(alloc, number.as_str())?,
        size_of(alloc, size.as_str())?,
        cycle_limit_of(alloc, cycles.as_str())?,
        page_limit_of(alloc, pages.as_str())?,
        workers_of(alloc, workers.as_str())?,
    ) else {
        return Ok(None);
    };
    Ok(Some(ProveJob::Generate {
        number,
        size,
        cycles,
        pages,
        workers,
    }))
}

/// Words name at most one job.
pub fn prove_words_name_one()
    ensures { OneProveJob }
{}
