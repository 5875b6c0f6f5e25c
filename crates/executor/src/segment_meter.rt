//! What the segment that is under way costs and touches.
ghost use Rattle.std.specs.Prelude.{◌≡◌, ℕ, ◌+◌, ◌<◌, ◌≤◌, None, IsTrue, IfOk, OnOk, OnErr, ltb};
ghost use Rattle.page_core.specs.Memory.{is_among};
ghost use Rattle.page_core.specs.declared.sizes.TheConstants.{PAGES};
ghost use Rattle.host_calls.specs.Meters.{fresh_meter, with_step, has_room};
ghost use Rattle.rv_step.specs.Machine.{first_closed};
ghost use Rattle.executor.specs.Marked.{with_steps};

use host_calls::{Foot, Meter};
use rv_step::{PageMarks, PageSet};
use std::alloc::{AllocError, Global};
use std::marker::Model;

// A meter, with a mark for each page that it has, so that a step can be told at once to touch no other. Contracts see the
// meter.
#[derive(Drop)]
pub(crate) struct SegmentMeter {
    cycles: u32,
    cost: u32,
    // of the pages alone, its cost is 0: the steps in pages that it has come without their footprints
    meter: Meter,
    marks: PageMarks,
    alloc: Global,
}

impl Model for SegmentMeter {
    ghost use Rattle.host_calls.specs.Meters as meters;
    ghost use Rattle.executor.specs.Marked as marked;

    ghost Value = { meters.Meter };

    ghost view = { λ m.
        record {
          segment = record {
            cycles = m.cycles;
            pages = m.meter.segment.pages;
            cost = m.cost;
            touched = m.meter.segment.touched;
          };
          spare = m.meter.spare;
        } };

    ghost invariant = { λ m. marked.IsMarked m.cycles m.cost m.meter.segment m.marks };
}

impl PageSet for SegmentMeter {
    ghost use Rattle.page_core.specs.Memory.{is_among};

    ghost holds = { λ m page. is_among m.segment.touched page };

    fn has(&self, page: u32) -> bool {
        self.marks.has(page)
    }
}

impl SegmentMeter {
    // A meter of no steps, with these limits. An AllocError is want of memory.
    pub(crate) fn new(alloc: Global, cycles: u32, pages: u32) -> Result<SegmentMeter, AllocError>
        ensures { IfOk result (λ meter. meter.segment ≡ fresh_meter cycles pages) }
    {
        let marks = PageMarks::new(alloc)?;
        Ok(SegmentMeter {
            cycles,
            cost: 0,
            meter: Meter::new(alloc, 0, pages),
            marks,
            alloc,
        })
    }

    // Whether the segment with one more step, of this footprint and cost, stays within both limits.
    pub(crate) fn fits(&self, foot: &Foot, cost: u32) -> bool
        ensures { result ≡ has_room foot.now cost self.now.segment }
    {
        cost <= self.cycles - self.cost && self.meter.fits(foot, 0)
    }

    // How much the steps that come next may cost.
    pub(crate) fn room(&self) -> u64
        ensures room { self.now.segment.cost + result ≡ self.now.segment.cycles }
        ensures pages { (page : ℕ) → IsTrue (is_among self.now.segment.touched page) →
            page < PAGES }
    {
        u64::from(self.cycles - self.cost)
    }

    // Makes room for one more footprint.
    pub(crate) fn reserve(&mut self) -> Result<(), AllocError>
        ensures same { self.new.segment ≡ self.old.segment }
        ensures room { OnOk result (6 ≤ self.new.spare) }
    {
        self.meter.reserve()
    }

    // Adds a step that fits, into the room that there is.
    pub(crate) fn add(&mut self, foot: &Foot, cost: u32)
        requires room { IsTrue (has_room foot.now cost self.old.segment) }
        requires spare { 6 ≤ self.old.spare }
        requires pages { first_closed (λ page. ltb page PAGES) foot.now ≡ None }
        ensures { self.new.segment ≡ with_step foot.now cost self.old.segment }
    {
        if self.meter.add(foot, 0).is_err() {
            unreachable!();
        }
        self.marks.mark(foot.pages());
        self.cost += cost;
    }

    // Adds steps that cost 1 each and touch pages that it has.
    pub(crate) fn add_quick(&mut self, steps: u32)
        requires { self.old.segment.cost + steps ≤ self.old.segment.cycles }
        ensures { self.new.segment ≡ with_steps steps self.old.segment }
    {
        self.cost += steps;
    }

    // Begins anew, with the same limits. An AllocError is want of memory, and then nothing is changed.
    pub(crate) fn clear(&mut self) -> Result<(), AllocError>
        ensures fresh { OnOk result (self.new.segment
            ≡ fresh_meter self.old.segment.cycles self.old.segment.pages) }
        ensures kept { OnErr result (self.new.segment ≡ self.old.segment) }
    {
        self.marks = PageMarks::new(self.alloc)?;
        self.meter.clear();
        self.cost = 0;
        Ok(())
    }

    // The pages that the steps touched, ascending, each once.
    pub(crate) fn pages(&self) -> &[u32]
        ensures value { result.now ≡ self.now.segment.touched }
    {
        self.meter.pages()
    }
}
