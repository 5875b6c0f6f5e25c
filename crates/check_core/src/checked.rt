ghost use Rattle.std.specs.Prelude.{◌≡◌, IfOk, IfErr};
ghost use Rattle.receipt_types.specs.Limits.{KeepsLimits};
ghost use Rattle.receipt_types.specs.Spelling.{Spells};
ghost use Rattle.check_core.specs.Checked.{IsChecked, RefusesItself, StopsItself};

use crate::judging::{check_bundle, first_id};
use crate::report::Report;
use crate::stop::CheckStop;
use digest_core::Digester;
use receipt_codec::read_bundle;
use receipt_types::Bundle;
use std::alloc::Global;
use std::marker::{Model, PhantomData};

/// A bundle that keeps the limits of a receipt and is accepted under the digest of its own first state, and its report.
/// `new` and `read` alone make one. Contracts see the bundle and the report.
#[derive(Drop)]
pub struct Checked<D: Digester> {
    bundle: Bundle,
    report: Report,
    digester: PhantomData<D>,
}

impl<D: Digester> Model for Checked<D> {
    ghost use Rattle.check_core.specs.Checked as plain;

    ghost Value = { plain.Checked };

    ghost coded = { plain.checked_code };

    ghost view = { λ c. record { bundle = c.bundle; report = c.report } };

    ghost invariant = { λ c. plain.IsChecked D.digest_of (record { bundle = c.bundle; report = c.report }) };
}

impl<D: Digester> Checked<D> {
    /// Checks a bundle that keeps the limits of a receipt under the digest of its own first state. Each stop but Memory
    /// comes exactly where it is the first; neither Malformed, Version nor WrongImage comes.
    pub fn new(alloc: Global, bundle: Bundle) -> Result<Checked<D>, CheckStop>
        requires { KeepsLimits bundle }
        ensures bundle { IfOk result (λ checked. checked.bundle ≡ bundle) }
        ensures checked { IfOk result (λ checked. IsChecked D.digest_of checked) }
        ensures stop { IfErr result (λ stop. StopsItself D.digest_of bundle stop) }
    {
        let id = first_id::<D>(&bundle);
        let report = check_bundle::<D>(alloc, &bundle, &id)?;
        Ok(Checked {
            bundle,
            report,
            digester: PhantomData,
        })
    }

    /// Reads the bundle that a receipt's bytes, of version 1, spell, and checks it under the digest of its own first state. Each
    /// stop but Memory comes exactly where it is the first; WrongImage doesn't come.
    pub fn read(alloc: Global, bytes: &[u8]) -> Result<Checked<D>, CheckStop>
        ensures spells { IfOk result (λ checked. Spells checked.bundle bytes.now) }
        ensures checked { IfOk result (λ checked. IsChecked D.digest_of checked) }
        ensures stop { IfErr result (λ stop. RefusesItself D.digest_of bytes.now stop) }
    {
        let bundle = read_bundle(alloc, bytes)?;
        Checked::new(alloc, bundle)
    }

    /// The bundle. It takes no memory.
    pub fn bundle(&self) -> &Bundle
        ensures value { result.now ≡ self.now.bundle }
        ensures checked { IsChecked D.digest_of self.now }
    {
        &self.bundle
    }

    /// The report of the bundle. It takes no memory.
    pub fn report(&self) -> &Report
        ensures value { result.now ≡ self.now.report }
        ensures checked { IsChecked D.digest_of self.now }
    {
        &self.report
    }
}
