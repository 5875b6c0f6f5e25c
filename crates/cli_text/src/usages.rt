//! The usage line of each program.
ghost use Rattle.std.specs.Prelude.{◌≡◌, IfOk};
ghost use Rattle.cli_text.specs.Usages.{check_usage_lines, prove_usage_lines};

use crate::texts::bytes_of;
use byte_cursor::ByteList;
use std::alloc::{AllocError, Global};

/// The usage line of `zk_check`. An AllocError is want of memory.
pub fn check_usage(alloc: Global) -> Result<ByteList, AllocError>
    ensures { IfOk result (λ text. text.items ≡ check_usage_lines) }
{
    bytes_of(
        alloc,
        "usage: zk_check check RECEIPT ID [JOURNALFILE] | audit RECEIPT ENTRY ELF | id ELF | inspect RECEIPT\n",
    )
}

/// The usage line of `zk_prove`. An AllocError is want of memory.
pub fn prove_usage(alloc: Global) -> Result<ByteList, AllocError>
    ensures { IfOk result (λ text. text.items ≡ prove_usage_lines) }
{
    bytes_of(
        alloc,
        "usage: zk_prove prove ELF INPUT RECEIPT [CYCLES PAGES LIMIT WORKERS [OTHER...]] | exec ELF INPUT LIMIT | generate NUMBER SIZE CYCLES PAGES WORKERS\n",
    )
}
