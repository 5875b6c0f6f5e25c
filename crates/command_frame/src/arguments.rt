//! The words of a program.
ghost use Rattle.std.specs.Prelude.{◌≡◌, IfErr};

use cli_text::Status;
use std::env;
use std::io::ErrorKind;
use std::rt::Env;

/// The words after the program's name; none where one of the arguments is no text. Err: want of memory.
pub fn words<R: Env + AllocGlobal>(rt: &R) -> Result<Vec<String>, Status>
    ensures { IfErr result (λ status. status ≡ Status.Memory) }
{
    let all = match env::args(rt) {
        Ok(all) => all,
        Err(error) if error.kind() == ErrorKind::OutOfMemory => return Err(Status::Memory),
        Err(_) => return Ok(Vec::new(rt.alloc())),
    };
    match all.skip(1).collect(rt.alloc()) {
        Ok(words) => Ok(words),
        Err(_) => Err(Status::Memory),
    }
}
