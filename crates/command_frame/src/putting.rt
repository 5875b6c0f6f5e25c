//! What a command writes and puts.
ghost use Rattle.std.specs.Prelude.{◌≡◌, ℕ, ◌+◌, ◌≤◌, ◌⊎◌, List, Option, IsSome, OnOk, OnErr};
ghost use Rattle.outside.specs.Faults.{Rose};
ghost use Rattle.command_frame.specs.Ends.{Fails, HasFile, IsPrintedEnd, IsPut, MayFailWrite, PutsEnd, new_file, files_after};

use crate::end::{Answer, End, NewFile};
use cli_text::Status;
use outside::{Desk, Failed, Sink};

/// Ends a command: writes the file of its answer, if there is one, puts its lines in one put, and answers its status; or that
/// of a write fault. A silent end writes and puts nothing.
pub fn put_end<K: Desk, O: Sink>(desk: &mut K, out: &mut O, end: End) -> Status
    requires { IsPrintedEnd end }
    ensures puts { PutsEnd end result (K.contents desk.old) (K.contents desk.new)
        (O.taken out.old) (O.taken out.new) }
    ensures write_fault { result ≡ Status.WriteFault →
        (HasFile end × Rose (K.write_faults desk.old) (K.write_faults desk.new))
        ⊎ Rose (O.faults out.old) (O.faults out.new) }
    ensures read_fault { result ≡ Status.ReadFault → end ≡ End.ReadFault }
    ensures reads { K.read_faults desk.new ≡ K.read_faults desk.old }
    ensures one_put { O.calls out.new ≤ O.calls out.old + 1 }
{
    match end {
        End::Told(answer) => match put_answer(desk, out, &answer) {
            Ok(()) => answer.status,
            Err(_) => Status::WriteFault,
        },
        End::ReadFault => Status::ReadFault,
        End::Memory => Status::Memory,
    }
}

// Writes the file of an answer, if there is one, and then puts its lines.
fn put_answer<K: Desk, O: Sink>(desk: &mut K, out: &mut O, answer: &Answer) -> Result<(), Failed>
    ensures put { OnOk result (IsPut (new_file answer.now.file) answer.now.lines.items
        (K.contents desk.old) (K.contents desk.new) (O.taken out.old) (O.taken out.new)) }
    ensures fails { OnErr result (Fails (new_file answer.now.file) answer.now.lines.items
        (K.contents desk.old) (K.contents desk.new) (O.taken out.old) (O.taken out.new)) }
    ensures fault { OnErr result
        ((IsSome answer.now.file × Rose (K.write_faults desk.old) (K.write_faults desk.new))
        ⊎ Rose (O.faults out.old) (O.faults out.new)) }
    ensures reads { K.read_faults desk.new ≡ K.read_faults desk.old }
    ensures one_put { O.calls out.new ≤ O.calls out.old + 1 }
{
    write_file(desk, &answer.file)?;
    out.put(answer.lines.as_slice())
}

// Writes the file of an answer, if there is one.
fn write_file<K: Desk>(desk: &mut K, file: &Option<NewFile>) -> Result<(), Failed>
    ensures done { OnOk result
        (K.contents desk.new ≡ files_after (new_file file.now) (K.contents desk.old)) }
    ensures failed { OnErr result ((taken : Option (List ℕ)) →
        MayFailWrite (new_file file.now) (K.contents desk.old) (K.contents desk.new) taken taken) }
    ensures fault { OnErr result
        (IsSome file.now × Rose (K.write_faults desk.old) (K.write_faults desk.new)) }
    ensures reads { K.read_faults desk.new ≡ K.read_faults desk.old }
{
    match file {
        Some(file) => desk.write(file.name.as_str(), file.bytes.as_slice()),
        None => Ok(()),
    }
}
