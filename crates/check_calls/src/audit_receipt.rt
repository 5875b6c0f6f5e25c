//! `audit RECEIPT ENTRY ELF`.
ghost use Rattle.std.specs.Prelude.{◌≡◌, ◌≢◌, Err};
ghost use Rattle.outside.specs.Faults.{Rose};
ghost use Rattle.elf_image.specs.Loaded.{image_of};
ghost use Rattle.receipt_types.specs.Limits.{KeepsLimits};
ghost use Rattle.command_frame.specs.Ends.{IsEnded};
ghost use Rattle.check_calls.specs.Audit.{AnswersAudit, Audits, IsBundleTold, status_of};

use audit::{AuditStop, Finding, audit};
use check_core::CheckStop;
use cli_text::{Name, Status, audit_stop_text, check_stop_text, finding_text};
use command_frame::{Answer, End, MOST_RECEIPT_BYTES, read_file, read_image};
use digest_core::Digester;
use elf_image::Image;
use outside::Desk;
use receipt_codec::{ReadStop, read_bundle};
use receipt_types::Bundle;
use std::alloc::Global;

// The answer to an audit of an entry of the receipt of a name, against the image that the ELF file of a name loads.
pub(crate) fn audit_entry<D: Digester, K: Desk>(
    alloc: Global,
    desk: &mut K,
    receipt: &Name,
    entry: u16,
    elf: &Name,
) -> Result<Answer, End>
    ensures answer { IsEnded (AnswersAudit D.digest_of
        (record { receipt = receipt.now; entry = entry; elf = elf.now })
        (K.contents desk.old)) result }
    ensures fault { result ≡ Err End.ReadFault →
        Rose (K.read_faults desk.old) (K.read_faults desk.new) }
    ensures contents { K.contents desk.new ≡ K.contents desk.old }
    ensures write_faults { K.write_faults desk.new ≡ K.write_faults desk.old }
{
    let bytes = read_file(alloc, desk, receipt.as_str(), MOST_RECEIPT_BYTES)?;
    let image = read_image(alloc, desk, elf.as_str())?;
    audit_bytes::<D>(alloc, bytes.as_slice(), entry, &image)
}

// The answer to the bytes of a receipt and an image.
fn audit_bytes<D: Digester>(
    alloc: Global,
    bytes: &[u8],
    entry: u16,
    image: &Image,
) -> Result<Answer, End>
    ensures audits { IsEnded (Audits D.digest_of bytes.now entry (image_of image.now)) result }
    ensures no_fault { result ≢ Err End.ReadFault }
{
    match read_bundle(alloc, bytes) {
        Ok(bundle) => audit_bundle::<D>(alloc, &bundle, entry, image),
        Err(ReadStop::Memory) => Err(End::Memory),
        Err(stop) => {
            let lines = check_stop_text(alloc, &CheckStop::from(stop))?;
            Ok(Answer::new(Status::Refused, lines))
        }
    }
}

// The answer to a bundle and an image.
fn audit_bundle<D: Digester>(
    alloc: Global,
    bundle: &Bundle,
    entry: u16,
    image: &Image,
) -> Result<Answer, End>
    requires { KeepsLimits bundle.now }
    ensures answer { IsEnded (IsBundleTold D.digest_of bundle.now entry (image_of image.now)) result }
    ensures no_fault { result ≢ Err End.ReadFault }
{
    match audit::<D>(alloc, bundle, entry, image) {
        Ok(finding) => {
            let lines = finding_text(alloc, &finding)?;
            Ok(Answer::new(status(&finding), lines))
        }
        Err(AuditStop::Memory) => Err(End::Memory),
        Err(stop) => {
            let lines = audit_stop_text(alloc, entry, &stop)?;
            Ok(Answer::new(Status::Refused, lines))
        }
    }
}

// The status of what an audit finds.
fn status(finding: &Finding) -> Status
    ensures { result ≡ status_of finding.now }
{
    match finding {
        Finding::Sound { .. } => Status::Done,
        Finding::Collision(_) => Status::Collision,
    }
}
