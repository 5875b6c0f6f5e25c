//! The other receipts of a proof, from their files.
ghost use Rattle.std.specs.Prelude.{◌≡◌, ◌≢◌, ◌≤◌, IfOk, IfErr, Err};
ghost use Rattle.outside.specs.Faults.{Rose};
ghost use Rattle.resolve.specs.Resolving.{bundles_of};
ghost use Rattle.command_frame.specs.Ends.{HasCause, IsEnded};
ghost use Rattle.prove_calls.specs.Others.{HasOther, HasOthers, NotOther, HasBadOther, TellsBadReceipt};

use byte_cursor::ItemList;
use check_core::{CheckStop, Checked};
use cli_text::{Name, Status, bad_receipt_text};
use command_frame::{Answer, End, MOST_RECEIPT_BYTES, ended, read_file};
use digest_core::Digester;
use outside::Desk;
use std::alloc::Global;

// The receipts of these names, each checked under the digest of its own first state.
pub(crate) fn read_others<D: Digester, K: Desk>(
    alloc: Global,
    desk: &mut K,
    names: &[Name],
) -> Result<ItemList<Checked<D>>, End>
    ensures others { IfOk result (λ others.
        HasOthers D.digest_of (K.contents desk.old) names.now (bundles_of others.items)) }
    ensures bad { IfErr result
        (HasCause (HasBadOther D.digest_of (K.contents desk.old) names.now)) }
    ensures fault { result ≡ Err End.ReadFault →
        Rose (K.read_faults desk.old) (K.read_faults desk.new) }
    ensures contents { K.contents desk.new ≡ K.contents desk.old }
    ensures write_faults { K.write_faults desk.new ≡ K.write_faults desk.old }
{
    let mut others = ItemList::new(alloc);
    for name in names {
        let other = read_other::<D, K>(alloc, desk, others.len(), name.as_str())?;
        others.push(other)?;
    }
    Ok(others)
}

// The receipt of this place and name, checked under the digest of its own first state.
fn read_other<D: Digester, K: Desk>(
    alloc: Global,
    desk: &mut K,
    place: usize,
    name: &str,
) -> Result<Checked<D>, End>
    ensures other { IfOk result (λ other.
        HasOther D.digest_of (K.contents desk.old) name.now other.bundle) }
    ensures bad { IfErr result
        (HasCause (NotOther D.digest_of (K.contents desk.old) place name.now)) }
    ensures fault { result ≡ Err End.ReadFault →
        Rose (K.read_faults desk.old) (K.read_faults desk.new) }
    ensures contents { K.contents desk.new ≡ K.contents desk.old }
    ensures read_faults { K.read_faults desk.old ≤ K.read_faults desk.new }
    ensures write_faults { K.write_faults desk.new ≡ K.write_faults desk.old }
{
    let bytes = read_file(alloc, desk, name, MOST_RECEIPT_BYTES)?;
    match Checked::read(alloc, bytes.as_slice()) {
        Ok(other) => Ok(other),
        Err(CheckStop::Memory) => Err(End::Memory),
        Err(stop) => Err(ended(bad_receipt(alloc, place, &stop))),
    }
}

// The answer to the receipt of a place that is refused.
fn bad_receipt(alloc: Global, place: usize, stop: &CheckStop) -> Result<Answer, End>
    ensures tells { IsEnded (TellsBadReceipt place stop.now) result }
    ensures no_fault { result ≢ Err End.ReadFault }
{
    let Ok(place) = u32::try_from(place) else {
        return Err(End::Memory);
    };
    let lines = bad_receipt_text(alloc, place, stop)?;
    Ok(Answer::new(Status::Refused, lines))
}
