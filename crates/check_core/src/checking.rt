ghost use Rattle.std.specs.Prelude.{IfOk, IfErr};
ghost use Rattle.check_core.specs.Checking.{IsReported, Refuses};

use crate::judging::check_bundle;
use crate::report::Report;
use crate::stop::CheckStop;
use digest_core::{Digest, Digester};
use receipt_codec::read_bundle;
use std::alloc::Global;

/// Checks a receipt's bytes, of version 1, under an image id. Ok comes exactly where they spell a bundle that is accepted
/// under the id, and each stop but Memory exactly where it is the first.
pub fn check<D: Digester>(alloc: Global, bytes: &[u8], id: &Digest) -> Result<Report, CheckStop>
    ensures report { IfOk result (λ report. IsReported D.digest_of id.now bytes.now report) }
    ensures stop { IfErr result (λ stop. Refuses D.digest_of id.now bytes.now stop) }
{
    let bundle = read_bundle(alloc, bytes)?;
    check_bundle::<D>(alloc, &bundle, id)
}
