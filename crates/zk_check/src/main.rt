//! Checks receipts: reads one, judges it under an image id, and prints the verdict; prints the claims of a receipt; and tells
//! the image id of a guest's ELF file.
#![tactic(auto)]

use check_calls::check_top;
use command_frame::words;
use digest_core::ShaDigester;
use outside::{DirDesk, StdSink};
use std::process::ExitCode;

fn main(rt: HostRuntime) -> ExitCode {
    let status = match words(&rt) {
        Ok(words) => check_top::<ShaDigester, _, _>(
            rt.alloc(),
            words.as_slice(),
            &mut DirDesk::new(&rt),
            &mut StdSink::new(&rt),
        ),
        Err(status) => status,
    };
    ExitCode::from(status.number())
}
