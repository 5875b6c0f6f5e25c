//! What a step touches, costs and faults with, told before it is done.
ghost use Rattle.std.specs.Prelude.{◌≡◌, ◌+◌, ◌%◌, ◌^◌, ◌≤◌, ◌<◌, IfOk, IsTrue, length};
ghost use Rattle.page_core.specs.Memory.{pages_of};
ghost use Rattle.host_calls.specs.Foots.{with_pages};
ghost use Rattle.host_calls.specs.Calls.{fits_below, ranges_of};
ghost use Rattle.rv_step.specs.declared.act.Act.TheVariants.{Does};
ghost use Rattle.rv_step.specs.Machine.{data_of, pages_of_all, foot_at, cost_of_act};
ghost use Rattle.rv_step.specs.Acts.{AllBelow, IsShortCall, IsSound};
ghost use Rattle.rv_step.specs.Tapes.{Log};
ghost use Rattle.rv_step.specs.Stepping.{state_at, fetched_act, looked_of, act_fault, HasTarget};

use crate::act::Act;
use crate::acting::{act_at, load_width, store_width, supply};
use crate::bus::Bus;
use crate::place::Core;
use crate::tape::WordTape;
use host_calls::{Call, Foot, cost};
use page_core::{REGISTER_PAGE, TOP};
use rv_isa::Fault;

/// What a step will do.
#[derive(Drop)]
pub struct Looked {
    /// The pages that it touches; of a step that faults those of its fetch.
    pub foot: Foot,
    /// Its cost, 1 to 257.
    pub cost: u32,
    /// The fault, where it faults.
    pub fault: Option<Fault>,
}

// The act of the next step, or the first page of its fetch that isn't open.
pub(crate) fn fetch<B: Bus>(core: &Core, bus: &B, tape: &WordTape) -> Result<Act, u32>
    requires { core.now.pc % 4 ≡ 0 }
    ensures answer { (log : Log) →
        result ≡ fetched_act (B.opens bus.now) (state_at core.now (B.byte_at bus.now)
        tape.now log) }
    ensures register { IfOk result (λ act. HasTarget act) }
    ensures sound { IfOk result (λ act. IsSound core.now.regs act) }
{
    let pc = core.pc;
    if !bus.is_open(REGISTER_PAGE) {
        return Err(REGISTER_PAGE);
    }
    if pc >= TOP {
        return Ok(Act::Faults(Fault::BadAddress(pc)));
    }
    if !bus.is_open(pc / 1024) {
        return Err(pc / 1024);
    }
    let act = act_at(bus.load_word(pc), core);
    Ok(supply(tape.rest().len(), act))
}

// Adds the pages of a range of data, which are at most two.
fn add_range(foot: &mut Foot, address: u32, size: u32)
    requires code { 2 ≤ length foot.old }
    requires room { length foot.old ≤ 4 }
    requires size { size ≤ 1024 }
    requires fits { IsTrue (fits_below address size) }
    ensures value { foot.new ≡ with_pages foot.old (pages_of address size) }
    ensures bound { length foot.new ≤ length foot.old + 2 }
    ensures code { 2 ≤ length foot.new }
{
    if size == 0 {
        return;
    }
    let first = address / 1024;
    let last = (address + size - 1) / 1024;
    if last == first {
        foot.add(first);
        return;
    }
    foot.add(last);
    foot.add(first);
}

// Adds the pages of a call's data, which are at most four.
fn add_call(foot: &mut Foot, call: &Call)
    requires fetch { length foot.old ≡ 2 }
    requires limits { IsShortCall (Does call.now) }
    requires below { AllBelow (ranges_of call.now) }
    ensures { foot.new ≡ with_pages foot.old (pages_of_all (ranges_of call.now)) }
{
    match call {
        Call::Halt { .. } => {}
        Call::Read { pointer, count } => add_range(foot, *pointer, 4 * *count),
        Call::Commit { pointer, count } => add_range(foot, *pointer, *count),
        Call::Assume { image, journal } => {
            add_range(foot, *journal, 32);
            add_range(foot, *image, 32);
        }
    }
}

// The footprint of an act.
pub(crate) fn footprint(pc: u32, act: &Act) -> Foot
    requires limits { IsShortCall act.now }
    requires below { AllBelow (data_of act.now) }
    ensures { result ≡ foot_at pc act.now }
{
    if pc >= TOP {
        return Foot::of_registers();
    }
    let mut foot = Foot::of_code(pc / 1024);
    match act {
        Act::Sets { .. } => {}
        Act::Loads { op, address, .. } => add_range(&mut foot, *address, load_width(*op)),
        Act::Stores { op, address, .. } => add_range(&mut foot, *address, store_width(*op)),
        Act::Does(call) => add_call(&mut foot, call),
        Act::Faults(_) => {}
    }
    foot
}

// The cost of an act.
pub(crate) fn cost_of(act: &Act) -> u32
    requires { IsShortCall act.now }
    ensures { result ≡ cost_of_act act.now }
{
    match act {
        Act::Does(call) => cost(call),
        _ => 1,
    }
}

// The fault of an act, if it is one.
fn fault_of(act: &Act) -> Option<Fault>
    ensures { result ≡ act_fault act.now }
{
    match act {
        Act::Faults(fault) => Some(*fault),
        _ => None,
    }
}

/// Tells what the next step touches, costs and faults with, without doing it. The pc is a multiple
/// of 4. It takes no memory.
///
/// Err is the number of the first page of the fetch that isn't open: the register page, or the code
/// page where the pc is in range.
pub fn look<B: Bus>(core: &Core, bus: &B, tape: &WordTape) -> Result<Looked, u32>
    requires { core.now.pc % 4 ≡ 0 }
    ensures { (log : Log) →
        result ≡ looked_of (B.opens bus.now) (state_at core.now (B.byte_at bus.now) tape.now log) }
{
    let act = fetch(core, bus, tape)?;
    Ok(Looked {
        foot: footprint(core.pc, &act),
        cost: cost_of(&act),
        fault: fault_of(&act),
    })
}
