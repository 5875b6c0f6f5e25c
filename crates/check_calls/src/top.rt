//! The words of `zk_check`, a row a command.
ghost use Rattle.std.specs.Prelude.{◌≡◌, ◌≢◌, ◌+◌, ◌≤◌, ◌⊎◌, map, string_bytes, Err};
ghost use Rattle.outside.specs.Faults.{Rose};
ghost use Rattle.command_frame.specs.Ends.{Ends, HasCause, IsDoneOrFails, IsEnded, MayWrite};
ghost use Rattle.check_calls.specs.Top.{CheckTable, CheckJobTable, CompletesCheck, IsDoneCheck, IsCollision, IsCheckUsage, NamesSomeCheck};

use crate::audit_receipt::audit_entry;
use crate::check::check_receipt;
use crate::id::identify;
use crate::inspect::inspect;
use check_core::{faithful_vouches, headline};
use cli_text::{CheckJob, Status, check_usage, parse_check};
use command_frame::{Answer, End, ended, put_end};
use digest_core::Digester;
use outside::{Desk, Sink};
use std::alloc::{AllocError, Global};

/// Answers the words of `zk_check`, and puts the answer in one put. With `check` and a name of a journal file, that file is written
/// where the receipt is valid; no other file changes.
pub fn check_top<D: Digester, K: Desk, O: Sink>(
    alloc: Global,
    words: &[String],
    desk: &mut K,
    out: &mut O,
) -> Status
    // What a status of 0 tells, by the command. Of a check it has the headline.
    ensures done { result ≡ Status.Done → IsDoneCheck D.digest_of (map string_bytes words.now)
        (K.contents desk.old) (K.contents desk.new) (O.taken out.old) (O.taken out.new) }
    // What a collision tells: two strings with one digest.
    ensures collision { result ≡ Status.Collision →
        IsCollision D.digest_of (map string_bytes words.now)
        (K.contents desk.old) (K.contents desk.new) (O.taken out.old) (O.taken out.new) }
    // Where nothing stands against it, the status is 0, or there was a fault or want of memory.
    ensures complete { CompletesCheck D.digest_of (map string_bytes words.now)
        (K.contents desk.old) →
        IsDoneOrFails result }

    // The status, the lines and the file are those of an answer, but for a fault and want of memory.
    ensures answer { Ends
        (CheckTable D.digest_of (map string_bytes words.now) (K.contents desk.old)) result
        (K.contents desk.old) (K.contents desk.new) (O.taken out.old) (O.taken out.new) }
    ensures read_fault { result ≡ Status.ReadFault → NamesSomeCheck (map string_bytes words.now)
        × Rose (K.read_faults desk.old) (K.read_faults desk.new) }
    ensures write_fault { result ≡ Status.WriteFault →
        (MayWrite (CheckTable D.digest_of (map string_bytes words.now) (K.contents desk.old))
        × Rose (K.write_faults desk.old) (K.write_faults desk.new))
        ⊎ Rose (O.faults out.old) (O.faults out.new) }

    ensures one_put { O.calls out.new ≤ O.calls out.old + 1 }
{
    headline::<D>();
    faithful_vouches::<D>();
    let end = answer::<D, K>(alloc, words, desk);
    put_end(desk, out, end)
}

// How the command of the words ends.
fn answer<D: Digester, K: Desk>(alloc: Global, words: &[String], desk: &mut K) -> End
    ensures answer { HasCause
        (CheckTable D.digest_of (map string_bytes words.now) (K.contents desk.old)) result }
    ensures fault { result ≡ End.ReadFault → NamesSomeCheck (map string_bytes words.now)
        × Rose (K.read_faults desk.old) (K.read_faults desk.new) }
    ensures contents { K.contents desk.new ≡ K.contents desk.old }
    ensures write_faults { K.write_faults desk.new ≡ K.write_faults desk.old }
{
    match parse_check(alloc, words) {
        Ok(Some(job)) => ended(answer_job::<D, K>(alloc, desk, job)),
        Ok(None) => ended(usage(alloc)),
        Err(AllocError) => End::Memory,
    }
}

// How the command of a job ends.
fn answer_job<D: Digester, K: Desk>(
    alloc: Global,
    desk: &mut K,
    job: CheckJob,
) -> Result<Answer, End>
    ensures answer { IsEnded (CheckJobTable D.digest_of job (K.contents desk.old)) result }
    ensures fault { result ≡ Err End.ReadFault →
        Rose (K.read_faults desk.old) (K.read_faults desk.new) }
    ensures contents { K.contents desk.new ≡ K.contents desk.old }
    ensures write_faults { K.write_faults desk.new ≡ K.write_faults desk.old }
{
    match job {
        CheckJob::Check { receipt, id } => check_receipt::<D, K>(alloc, desk, &receipt, &id, None),
        CheckJob::CheckInto {
            receipt,
            id,
            journal,
        } => check_receipt::<D, K>(alloc, desk, &receipt, &id, Some(journal)),
        CheckJob::Audit {
            receipt,
            entry,
            elf,
        } => audit_entry::<D, K>(alloc, desk, &receipt, entry, &elf),
        CheckJob::Id { elf } => identify::<D, K>(alloc, desk, &elf),
        CheckJob::Inspect { receipt } => inspect::<D, K>(alloc, desk, &receipt),
    }
}

// The answer to words of no command.
fn usage(alloc: Global) -> Result<Answer, End>
    ensures usage { IsEnded IsCheckUsage result }
    ensures no_fault { result ≢ Err End.ReadFault }
{
    let lines = check_usage(alloc)?;
    Ok(Answer::new(Status::Words, lines))
}
