//! The report of a bundle that is put together, made of the parts' reports.
ghost use Rattle.std.specs.Prelude.{◌≡◌, ◌+◌, ◌<◌, ◌≤◌, ◌++◌, length, map, All, Some, IfOk, OnOk};
ghost use Rattle.receipt_types.specs.Limits.{AllSealLimits};
ghost use Rattle.check_core.specs.Reports.{report_of};
ghost use Rattle.resolve.specs.Resolving.{bundles_of, IsResolved};
ghost use Rattle.resolve.specs.Parts as plain;
ghost use Rattle.receipt_types.specs.declared.sizes.TheConstants.{MOST_ENTRIES, MOST_SEALS};

use crate::entries::raised_links;
use byte_cursor::ByteList;
use check_core::{Checked, ClaimList, EntryClaim, Report, entry_report};
use digest_core::Digester;
use lift_join::Joined;
use receipt_types::Bundle;
use std::alloc::{AllocError, Global};

/// The report of a bundle that `resolve` made of what is proved, whose seals keep the limits of a receipt, and of these
/// others, all of which are premises. No seal is replayed. An AllocError is want of memory.
pub fn resolved_report<D: Digester>(
    alloc: Global,
    bundle: &Bundle,
    joined: &Joined<D>,
    others: &[Checked<D>],
) -> Result<Report, AllocError>
    requires resolved { IsResolved D.digest_of joined.now (bundles_of others.now) bundle.now }
    requires few { length joined.now.seals ≤ MOST_SEALS }
    requires limits { AllSealLimits joined.now.seals }
    ensures { IfOk result (λ report. report_of D.digest_of bundle.now ≡ Some report) }
{
    let Some(first) = bundle.entries.as_slice().first() else {
        unreachable!();
    };
    let mut entries = ClaimList::new(alloc);
    entries.push(entry_report::<D>(alloc, first, joined.claim())?)?;
    for other in others {
        add_reports(alloc, &mut entries, other.report().entries.as_slice())?;
    }
    let mut journal = ByteList::new(alloc);
    journal.extend(joined.claim().journal.as_slice())?;
    Ok(Report { journal, entries })
}

// Appends the reports of a bundle's entries, with their links raised by the number of its first entry here.
fn add_reports(
    alloc: Global,
    entries: &mut ClaimList,
    reports: &[EntryClaim],
) -> Result<(), AllocError>
    requires few { length entries.old.items ≤ MOST_ENTRIES }
    requires links { All (λ report. All (λ link. link < MOST_ENTRIES) report.links) reports.now }
    ensures { OnOk result
        (entries.new.items
        ≡ entries.old.items ++ map (plain.raised_report (length entries.old.items)) reports.now) }
{
    let first = entries.len() as u16;
    for report in reports {
        entries.push(raised_report(alloc, first, report)?)?;
    }
    Ok(())
}

// A report with its links raised.
fn raised_report(alloc: Global, first: u16, report: &EntryClaim) -> Result<EntryClaim, AllocError>
    requires { All (λ link. first + link < 65536) report.now.links }
    ensures { IfOk result (λ raised. raised ≡ plain.raised_report first report.now) }
{
    Ok(EntryClaim {
        image: report.image,
        exit: report.exit,
        journal_bytes: report.journal_bytes,
        journal_digest: report.journal_digest,
        conditional: report.conditional,
        claim: report.claim,
        calls: report.calls,
        seals: report.seals,
        steps: report.steps,
        links: raised_links(alloc, first, report.links.as_slice())?,
    })
}
