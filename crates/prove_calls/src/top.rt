//! The words of `zk_prove`, a row a command.
ghost use Rattle.std.specs.Prelude.{◌≡◌, ◌≢◌, ◌+◌, ◌≤◌, ◌⊎◌, ℕ, List, map, string_bytes, Err};
ghost use Rattle.outside.specs.Faults.{Rose};
ghost use Rattle.rv_step.specs.Limits.{IsCycleLimit, IsPageLimit, IsLimit};
ghost use Rattle.cli_text.specs.ProveWords.{NamesProve};
ghost use Rattle.command_frame.specs.Ends.{Ends, HasCause, IsDoneOrFails, IsEnded, MayWrite};
ghost use Rattle.prove_calls.specs.Top.{ProveTable, ExecTable, AnswersExecAlone, ProveJobTable, CompletesProve, CompletesExecWords, IsDoneProve, IsDoneExec, IsExec, IsProveUsage, NamesRun, NamesSomeProve, ProveReads};

use crate::exec::exec;
use crate::generate::generate;
use crate::prove::prove;
use cli_text::{ProveJob, Status, parse_prove, prove_usage};
use command_frame::{Answer, End, ended, put_end};
use digest_core::Digester;
use executor::{DEFAULT_CYCLES, DEFAULT_LIMIT, DEFAULT_PAGES, Limits};
use outside::{Desk, Sink};
use rv_step::LIMIT_MAX;
use session::Gate;
use std::alloc::{AllocError, Global};
use std::sync::Wait;
use std::thread::Threads;

/// Answers the words of `zk_prove`, and puts the answer in one put. With `prove` the receipt's file is written where the run
/// is proved and the receipt isn't too long; no other file changes. There are no worker threads: words with another number
/// of them than 0 are answered by the usage line.
pub fn prove_top<D: Digester, K: Desk, O: Sink, G: Gate, R: Threads + Wait + Sync>(
    _rt: &R,
    alloc: Global,
    words: &[String],
    desk: &mut K,
    out: &mut O,
    _gate: &G,
) -> Status
    // What a status of 0 tells, by the command. Of a proof it has the receipt's bytes.
    ensures done { result ≡ Status.Done → IsDoneProve D.digest_of (map string_bytes words.now)
        (K.contents desk.old) (K.contents desk.new) (O.taken out.old) (O.taken out.new) }
    // Where nothing stands against it, the status is 0, or there was a fault or want of memory.
    ensures complete { CompletesProve D.digest_of (map string_bytes words.now)
        (K.contents desk.old) →
        IsDoneOrFails result }

    // The status, the lines and the file are those of an answer, but for a fault and want of memory.
    ensures answer { Ends
        (ProveTable D.digest_of (map string_bytes words.now) (K.contents desk.old))
        result (K.contents desk.old) (K.contents desk.new) (O.taken out.old) (O.taken out.new) }
    ensures read_fault { result ≡ Status.ReadFault → NamesSomeProve (map string_bytes words.now)
        × Rose (K.read_faults desk.old) (K.read_faults desk.new) }
    ensures write_fault { result ≡ Status.WriteFault →
        (MayWrite (ProveTable D.digest_of (map string_bytes words.now) (K.contents desk.old))
        × Rose (K.write_faults desk.old) (K.write_faults desk.new))
        ⊎ Rose (O.faults out.old) (O.faults out.new) }

    ensures one_put { O.calls out.new ≤ O.calls out.old + 1 }
{
    let end = answer::<D, K>(alloc, words, desk);
    put_end(desk, out, end)
}

// How the command of the words ends.
fn answer<D: Digester, K: Desk>(alloc: Global, words: &[String], desk: &mut K) -> End
    ensures answer { HasCause
        (ProveTable D.digest_of (map string_bytes words.now) (K.contents desk.old)) result }
    ensures fault { result ≡ End.ReadFault → NamesSomeProve (map string_bytes words.now)
        × Rose (K.read_faults desk.old) (K.read_faults desk.new) }
    ensures contents { K.contents desk.new ≡ K.contents desk.old }
    ensures write_faults { K.write_faults desk.new ≡ K.write_faults desk.old }
{
    match parse_prove(alloc, words) {
        Ok(Some(job)) => ended(answer_job::<D, K>(alloc, desk, job)),
        Ok(None) => ended(usage(alloc)),
        Err(AllocError) => End::Memory,
    }
}

// How the command of a job ends.
fn answer_job<D: Digester, K: Desk>(
    alloc: Global,
    desk: &mut K,
    job: ProveJob,
) -> Result<Answer, End>
    requires named { (words : List (List ℕ)) × NamesProve words job }
    ensures answer { IsEnded (ProveJobTable D.digest_of job (K.contents desk.old)) result }
    ensures fault { result ≡ Err End.ReadFault → ProveReads job
        × Rose (K.read_faults desk.old) (K.read_faults desk.new) }
    ensures contents { K.contents desk.new ≡ K.contents desk.old }
    ensures write_faults { K.write_faults desk.new ≡ K.write_faults desk.old }
{
    match job {
        ProveJob::ProveDefault {
            elf,
            input,
            receipt,
        } => {
            let limits = limits_of(DEFAULT_CYCLES, DEFAULT_PAGES, DEFAULT_LIMIT);
            prove::<D, K>(alloc, desk, &elf, &input, receipt, limits, &[])
        }
        ProveJob::Prove {
            elf,
            input,
            receipt,
            cycles,
            pages,
            limit,
            workers,
            others,
        } => {
            if workers != 0 {
                return usage(alloc);
            }
            let limits = limits_of(cycles, pages, limit);
            prove::<D, K>(
                alloc,
                desk,
                &elf,
                &input,
                receipt,
                limits,
                others.as_slice(),
            )
        }
        ProveJob::Exec { elf, input, limit } => exec(alloc, desk, &elf, &input, limit),
        ProveJob::Generate {
            number,
            size,
            cycles,
            pages,
            workers,
        } => {
            if workers != 0 {
                return usage(alloc);
            }
            generate::<D>(alloc, number, size, limits_of(cycles, pages, LIMIT_MAX))
        }
    }
}

// Limits, each in its range.
fn limits_of(cycles: u32, pages: u32, limit: u64) -> Limits
    requires cycles { IsCycleLimit cycles }
    requires pages { IsPageLimit pages }
    requires limit { IsLimit limit }
    ensures { result ≡ record { cycles = cycles; pages = pages; limit = limit } }
{
    match Limits::new(cycles, pages, limit) {
        Some(limits) => limits,
        None => unreachable!(),
    }
}

/// Answers the words of `exec` as `prove_top` does, and other words by the usage line; it needs no threads. No file changes.
pub fn exec_top<K: Desk, O: Sink>(
    alloc: Global,
    words: &[String],
    desk: &mut K,
    out: &mut O,
) -> Status
    // With a status of 0 the uncut run of the guest in the two files halts within the limit, and exactly its lines are put.
    ensures done { result ≡ Status.Done → IsDoneExec (map string_bytes words.now)
        (K.contents desk.old) (K.contents desk.new) (O.taken out.old) (O.taken out.new) }
    // Where it halts so, the status is 0, or there was a fault or want of memory.
    ensures complete { CompletesExecWords (map string_bytes words.now) (K.contents desk.old) →
        IsDoneOrFails result }

    // The status and the lines are those of an answer, but for a fault and want of memory.
    ensures answer { Ends (ExecTable (map string_bytes words.now) (K.contents desk.old)) result
        (K.contents desk.old) (K.contents desk.new) (O.taken out.old) (O.taken out.new) }
    ensures read_fault { result ≡ Status.ReadFault → NamesRun (map string_bytes words.now)
        × Rose (K.read_faults desk.old) (K.read_faults desk.new) }
    ensures write_fault { result ≡ Status.WriteFault →
        (MayWrite (ExecTable (map string_bytes words.now) (K.contents desk.old))
        × Rose (K.write_faults desk.old) (K.write_faults desk.new))
        ⊎ Rose (O.faults out.old) (O.faults out.new) }

    ensures one_put { O.calls out.new ≤ O.calls out.old + 1 }
{
    let end = answer_exec(alloc, words, desk);
    put_end(desk, out, end)
}

// How the words of `exec` end.
fn answer_exec<K: Desk>(alloc: Global, words: &[String], desk: &mut K) -> End
    ensures answer { HasCause
        (ExecTable (map string_bytes words.now) (K.contents desk.old)) result }
    ensures fault { result ≡ End.ReadFault → NamesRun (map string_bytes words.now)
        × Rose (K.read_faults desk.old) (K.read_faults desk.new) }
    ensures contents { K.contents desk.new ≡ K.contents desk.old }
    ensures write_faults { K.write_faults desk.new ≡ K.write_faults desk.old }
{
    match parse_prove(alloc, words) {
        Ok(Some(job)) => ended(exec_job(alloc, desk, job)),
        Ok(None) => ended(usage(alloc)),
        Err(AllocError) => End::Memory,
    }
}

// How a job ends where only `exec` is a command.
fn exec_job<K: Desk>(alloc: Global, desk: &mut K, job: ProveJob) -> Result<Answer, End>
    ensures answer { IsEnded (AnswersExecAlone job (K.contents desk.old)) result }
    ensures fault { result ≡ Err End.ReadFault → IsExec job
        × Rose (K.read_faults desk.old) (K.read_faults desk.new) }
    ensures contents { K.contents desk.new ≡ K.contents desk.old }
    ensures write_faults { K.write_faults desk.new ≡ K.write_faults desk.old }
{
    match job {
        ProveJob::Exec { elf, input, limit } => exec(alloc, desk, &elf, &input, limit),
        ProveJob::ProveDefault { .. } => usage(alloc),
        ProveJob::Prove { .. } => usage(alloc),
        ProveJob::Generate { .. } => usage(alloc),
    }
}

// The answer to words of no command.
fn usage(alloc: Global) -> Result<Answer, End>
    ensures usage { IsEnded IsProveUsage result }
    ensures no_fault { result ≢ Err End.ReadFault }
{
    let lines = prove_usage(alloc)?;
    Ok(Answer::new(Status::Words, lines))
}
