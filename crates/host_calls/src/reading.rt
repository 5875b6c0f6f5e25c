ghost use Rattle.std.specs.Prelude.{◌≡◌, ◌≤◌};
ghost use Rattle.host_calls.specs.Calls.{read_call_of, cost_of, takes};

use crate::call::Call;
use page_core::TOP;
use rv_isa::{Fault, Regs};

/// The host call that the registers name: its number in x17, its arguments in x10 and x11.
///
/// Fault is `BadCall` where the number is above 3; else `BadArgs` where an argument breaks its rule; else
/// `BadAddress` with the first of the call's ranges of at least one byte that doesn't end at the register page or
/// below. It takes no memory.
#[tactic(auto, unfolding(crate::specs::Calls::read_call_of, crate::specs::Calls::call_or_fault, crate::specs::Calls::within))]
pub fn read_call(regs: &Regs) -> Result<Call, Fault>
    ensures { result ≡ read_call_of regs.now }
{
    let number = regs.get(17);
    let a0 = regs.get(10);
    let a1 = regs.get(11);
    match number {
        0 => Ok(Call::Halt { code: a0 }),
        1 => {
            if a0 % 4 != 0 || a1 > 256 {
                Err(Fault::BadArgs(1))
            } else if a1 != 0 && a0 > TOP - 4 * a1 {
                Err(Fault::BadAddress(a0))
            } else {
                Ok(Call::Read {
                    pointer: a0,
                    count: a1,
                })
            }
        }
        2 => {
            if a1 > 1024 {
                Err(Fault::BadArgs(2))
            } else if a1 != 0 && a0 > TOP - a1 {
                Err(Fault::BadAddress(a0))
            } else {
                Ok(Call::Commit {
                    pointer: a0,
                    count: a1,
                })
            }
        }
        3 => {
            if a0 % 4 != 0 || a1 % 4 != 0 {
                Err(Fault::BadArgs(3))
            } else if a0 > TOP - 32 {
                Err(Fault::BadAddress(a0))
            } else if a1 > TOP - 32 {
                Err(Fault::BadAddress(a1))
            } else {
                Ok(Call::Assume {
                    image: a0,
                    journal: a1,
                })
            }
        }
        _ => Err(Fault::BadCall(number)),
    }
}

/// The cost of the step that makes this call. It takes no memory.
pub fn cost(call: &Call) -> u32
    requires { takes call.now ≤ 256 }
    ensures { result ≡ cost_of call.now }
{
    match call {
        Call::Halt { .. } => 1,
        Call::Read { count, .. } => 1 + *count,
        Call::Commit { count, .. } => 1 + (*count / 4 + u32::from(*count % 4 != 0)),
        Call::Assume { .. } => 17,
    }
}
