//! Runs guests, and proves their runs: the uncut run of a guest's ELF file on an input file, under a limit on its cost, and
//! the receipt of such a run.
#![tactic(auto)]

use command_frame::words;
use digest_core::ShaDigester;
use outside::{DirDesk, StdSink};
use prove_calls::prove_top;
use session::NoGate;
use std::process::ExitCode;

fn main(rt: HostRuntime) -> ExitCode {
    let status = match words(&rt) {
        Ok(words) => prove_top::<ShaDigester, _, _, _, _>(
            &rt,
            rt.alloc(),
            words.as_slice(),
            &mut DirDesk::new(&rt),
            &mut StdSink::new(&rt),
            &NoGate,
        ),
        Err(status) => status,
    };
    ExitCode::from(status.number())
}
