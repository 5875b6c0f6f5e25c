ghost use Rattle.std.specs.Prelude.{◌≡◌, IfOk};
ghost use Rattle.inspect_json.specs.Text.{report_line};

use crate::values::report_value;
use byte_cursor::{ByteList, Out};
use check_core::Report;
use std::alloc::{AllocError, Global};

/// The report as one compact JSON object and a line feed. The members of each object are in the order of their keys. An
/// AllocError is want of memory.
pub fn report_text(alloc: Global, report: &Report) -> Result<ByteList, AllocError>
    ensures { IfOk result (λ text. text.items ≡ report_line report.now) }
{
    let text = report_value(alloc, report)?.to_vec(alloc)?;
    let mut out = Out::new(alloc);
    out.put_all(text.as_slice())?;
    out.put_u8(b'\n')?;
    Ok(out.finish())
}
