//! The numbers and ids that words tell.
ghost use Rattle.rv_step.specs.Limits.{IsCycleLimit, IsPageLimit, IsLimit};
ghost use Rattle.cli_text.specs.Values.{IsId, AreWorkers, IsSize};
ghost use Rattle.std.specs.Prelude.{◌≡◌, ℕ, ◌≤◌, ◌<◌, ◌^◌, decimal, List, IfSome, IfNone};
ghost use Rattle.cli_text.specs.Told.{IfTold, IfUntold};

use digest_core::Digest;
use guest_gen::SIZE_MAX;
use rv_step::{CYCLES_MAX, CYCLES_MIN, LIMIT_MAX, PAGES_MAX, PAGES_MIN};
use std::alloc::{AllocError, Global};

/// The most workers of a proof.
pub const WORKERS_MAX: u8 = 64;

// The number below 2^64 that a word tells: `0`, or digits of which the first isn't 0.
pub(crate) fn number_of(alloc: Global, word: &str) -> Result<Option<u64>, AllocError>
    ensures some { IfTold result (λ n. (word.now ≡ decimal n) × (n < 2 ^ 64)) }
    ensures none { IfUntold result ((n : ℕ) → n < 2 ^ 64 → word.now ≡ decimal n → ⊥) }
{
    let Ok(number) = word.parse::<u64>() else {
        return Ok(None);
    };
    let digits = format!(in alloc; "{number}")?;
    if digits.as_str() != word {
        return Ok(None);
    }
    Ok(Some(number))
}

// The number from `low` to `high` that a word tells.
pub(crate) fn number_within(
    alloc: Global,
    word: &str,
    low: u64,
    high: u64,
) -> Result<Option<u64>, AllocError>
    ensures some { IfTold result (λ n. word.now ≡ decimal n) }
    ensures low { IfTold result (λ n. low ≤ n) }
    ensures high { IfTold result (λ n. n ≤ high) }
    ensures none { IfUntold result ((n : ℕ) → low ≤ n → n ≤ high → word.now ≡ decimal n → ⊥) }
{
    match number_of(alloc, word)? {
        Some(number) if low <= number && number <= high => Ok(Some(number)),
        _ => Ok(None),
    }
}

// The limit on the cost of a segment that a word tells.
pub(crate) fn cycle_limit_of(alloc: Global, word: &str) -> Result<Option<u32>, AllocError>
    ensures some { IfTold result (λ n. word.now ≡ decimal n) }
    ensures range { IfTold result IsCycleLimit }
    ensures none { IfUntold result ((n : ℕ) → IsCycleLimit n → word.now ≡ decimal n → ⊥) }
{
    match number_within(alloc, word, CYCLES_MIN as u64, CYCLES_MAX as u64)? {
        Some(number) => Ok(Some(number as u32)),
        None => Ok(None),
    }
}

// The limit on the pages of a segment that a word tells.
pub(crate) fn page_limit_of(alloc: Global, word: &str) -> Result<Option<u32>, AllocError>
    ensures some { IfTold result (λ n. word.now ≡ decimal n) }
    ensures range { IfTold result IsPageLimit }
    ensures none { IfUntold result ((n : ℕ) → IsPageLimit n → word.now ≡ decimal n → ⊥) }
{
    match number_within(alloc, word, PAGES_MIN as u64, PAGES_MAX as u64)? {
        Some(number) => Ok(Some(number as u32)),
        None => Ok(None),
    }
}

// The limit on the cost of a run that a word tells.
pub(crate) fn limit_of(alloc: Global, word: &str) -> Result<Option<u64>, AllocError>
    ensures some { IfTold result (λ n. word.now ≡ decimal n) }
    ensures range { IfTold result IsLimit }
    ensures none { IfUntold result ((n : ℕ) → IsLimit n → word.now ≡ decimal n → ⊥) }
{
    number_within(alloc, word, 1, LIMIT_MAX)
}

// The number of workers that a word tells.
pub(crate) fn workers_of(alloc: Global, word: &str) -> Result<Option<u8>, AllocError>
    ensures some { IfTold result (λ n. word.now ≡ decimal n) }
    ensures range { IfTold result AreWorkers }
    ensures none { IfUntold result ((n : ℕ) → AreWorkers n → word.now ≡ decimal n → ⊥) }
{
    match number_within(alloc, word, 0, WORKERS_MAX as u64)? {
        Some(number) => Ok(Some(number as u8)),
        None => Ok(None),
    }
}

// The size of the generator's guest that a word tells.
pub(crate) fn size_of(alloc: Global, word: &str) -> Result<Option<u32>, AllocError>
    ensures some { IfTold result (λ n. word.now ≡ decimal n) }
    ensures range { IfTold result IsSize }
    ensures none { IfUntold result ((n : ℕ) → IsSize n → word.now ≡ decimal n → ⊥) }
{
    match number_within(alloc, word, 1, SIZE_MAX as u64)? {
        Some(number) => Ok(Some(number as u32)),
        None => Ok(None),
    }
}

// The bytes that 64 hexadecimal digits tell.
pub(crate) fn id_of(word: &str) -> Option<Digest>
    ensures some { IfSome result (λ id. IsId word.now id) }
    ensures none { IfNone result ((id : List ℕ) → IsId word.now id → ⊥) }
{
    let mut bytes = [0; 32];
    match hex::decode_to_slice(word, &mut bytes) {
        Ok(()) => Some(Digest::of(&bytes)),
        Err(_) => None,
    }
}

// The number of an entry that a word tells.
pub(crate) fn entry_of(alloc: Global, word: &str) -> Result<Option<u16>, AllocError>
    ensures some { IfTold result (λ n. word.now ≡ decimal n) }
    ensures range { IfTold result (λ n. n < 2 ^ 16) }
    ensures none { IfUntold result ((n : ℕ) → n < 2 ^ 16 → word.now ≡ decimal n → ⊥) }
{
    match number_within(alloc, word, 0, 65_535)? {
        Some(entry) => Ok(Some(entry as u16)),
        None => Ok(None),
    }
}
