ghost use Rattle.std.specs.Prelude.{◌≡◌, ◌+◌, ◌<◌, ◌≤◌, ◌++◌, length, not, vec_len, vec_capacity, IsTrue, IsOk, OnOk, OnErr};
ghost use Rattle.page_core.specs.Memory.{ascending, place, is_among};
ghost use Rattle.host_calls.specs.Meters.{fresh_meter, with_step, is_within, has_room};

use crate::Foot;
use std::alloc::{AllocError, Global};
use std::marker::Model;

// The most pages that a step touches.
const PAGES_OF_STEP: usize = 6;

/// What the steps of a segment cost so far and the pages that they touched, with the most that
/// either may be. Contracts see these, and for how many more pages it has room.
#[derive(Drop)]
pub struct Meter {
    cycles: u32,
    pages: u32,
    cost: u32,
    // ascending, each once
    touched: Vec<u32>,
}

impl Model for Meter {
    ghost use Rattle.std.specs.Prelude.{◌≡◌, ◌-◌, vec_len, vec_capacity, IsTrue};
    ghost use Rattle.page_core.specs.Memory.{ascending};
    ghost use Rattle.host_calls.specs.Meters as meters;
    ghost use Rattle.host_calls.specs.Meters.{is_within};

    ghost Value = { meters.Meter };

    ghost view = { λ m. record { segment = record { cycles = m.cycles; pages = m.pages; cost = m.cost; touched = m.touched.items }; spare = vec_capacity m.touched - vec_len m.touched } };

    ghost invariant = { λ m. (ascending m.touched.items ≡ m.touched.items) × IsTrue (is_within (record { cycles = m.cycles; pages = m.pages; cost = m.cost; touched = m.touched.items })) };
}

// Whether a page is neither among the pages touched, which ascend, nor among the others.
fn is_new(touched: &[u32], others: &[u32], page: u32) -> bool
    requires { ascending touched.now ≡ touched.now }
    ensures { result ≡ not (is_among (others.now ++ touched.now) page) }
{
    touched.binary_search(&page).is_err() && !others.contains(&page)
}

// How many of these pages are not among the pages touched, which ascend, each counted once.
fn count_new(touched: &[u32], pages: &[u32]) -> usize
    requires { ascending touched.now ≡ touched.now }
    ensures { length touched.now + result ≡ length (ascending (pages.now ++ touched.now)) }
{
    let mut count = 0;
    for (at, page) in pages.iter().enumerate() {
        if is_new(touched, &pages[at + 1..], *page) {
            count += 1;
        }
    }
    count
}

// Puts a page into its place, unless it is there, and takes no memory.
fn put(touched: &mut Vec<u32>, page: u32)
    requires ascending { ascending touched.old.items ≡ touched.old.items }
    requires room { vec_len touched.old < vec_capacity touched.old }
    ensures items { touched.new.items ≡ place page touched.old.items }
    ensures len { vec_len touched.new ≤ vec_len touched.old + 1 }
    ensures capacity { vec_capacity touched.old ≤ vec_capacity touched.new }
{
    if let Err(at) = touched.binary_search(&page) {
        if touched.insert(at, page).is_err() {
            unreachable!();
        }
    }
}

// Puts pages into their places, into the room that there is, and takes no memory.
fn put_all(touched: &mut Vec<u32>, pages: &[u32])
    requires ascending { ascending touched.old.items ≡ touched.old.items }
    requires room { vec_len touched.old + length pages.now ≤ vec_capacity touched.old }
    ensures { touched.new.items ≡ ascending (pages.now ++ touched.old.items) }
{
    for page in pages {
        put(touched, *page);
    }
}

impl Meter {
    /// A meter of no steps, with these limits. It takes no memory.
    pub fn new(alloc: Global, cycles: u32, pages: u32) -> Meter
        ensures { result.segment ≡ fresh_meter cycles pages }
    {
        Meter {
            cycles,
            pages,
            cost: 0,
            touched: Vec::new(alloc),
        }
    }

    /// Whether the segment with one more step, of this footprint and cost, stays within both
    /// limits. It takes no memory.
    pub fn fits(&self, foot: &Foot, cost: u32) -> bool
        ensures { result ≡ has_room foot.now cost self.now.segment }
    {
        cost <= self.cycles - self.cost
            && count_new(&self.touched, foot.pages()) <= self.pages as usize - self.touched.len()
    }

    /// Makes room for one more footprint.
    pub fn reserve(&mut self) -> Result<(), AllocError>
        ensures same { self.new.segment ≡ self.old.segment }
        ensures room { OnOk result (6 ≤ self.new.spare) }
    {
        self.touched.reserve(PAGES_OF_STEP)
    }

    /// Adds a step that fits. An AllocError is want of memory, and then nothing is changed; where
    /// there is room for six pages it doesn't come.
    pub fn add(&mut self, foot: &Foot, cost: u32) -> Result<(), AllocError>
        requires { IsTrue (has_room foot.now cost self.old.segment) }
        ensures added { OnOk result (self.new.segment ≡ with_step foot.now cost self.old.segment) }
        ensures kept { OnErr result (self.new.segment ≡ self.old.segment) }
        ensures room { 6 ≤ self.old.spare → IsOk result }
    {
        self.touched.reserve(PAGES_OF_STEP)?;
        put_all(&mut self.touched, foot.pages());
        self.cost += cost;
        Ok(())
    }

    /// Begins anew, with the same limits. It takes no memory.
    pub fn clear(&mut self)
        ensures { self.new.segment ≡ fresh_meter self.old.segment.cycles self.old.segment.pages }
    {
        self.cost = 0;
        self.touched.clear();
    }

    /// The pages that the steps touched, ascending, each once.
    pub fn pages(&self) -> &[u32]
        ensures value { result.now ≡ self.now.segment.touched }
        ensures ascending { ascending self.now.segment.touched ≡ self.now.segment.touched }
        ensures within { IsTrue (is_within self.now.segment) }
    {
        self.touched.as_slice()
    }
}
