//! Marks of the pages that steps touched.
ghost use Rattle.std.specs.Prelude.{◌≡◌, ℕ, ◌<◌, ◌||◌, IfOk, replicate, length, set, slice_index_or, true, false};
ghost use Rattle.page_core.specs.Memory.{is_among};
ghost use Rattle.page_core.specs.declared.sizes.TheConstants.{PAGES};
ghost use Rattle.rv_step.specs.Machine.{first_closed};

use crate::page_set::PageSet;
use page_core::PAGES;
use std::alloc::{AllocError, Global};
use std::marker::Model;

// A mark for each page of a memory.
const MARKS: usize = PAGES as usize;

/// Marks of pages, by their numbers from 0 to 262,143: the set of those that are marked. Contracts see the list of the
/// marks.
#[derive(Drop)]
pub struct PageMarks {
    marks: Vec<bool>,
}

impl Model for PageMarks {
    ghost use Rattle.std.specs.Prelude.{List, Bool};

    ghost Value = { List Bool };

    ghost view = { λ m. m.marks.items };
}

impl PageSet for PageMarks {
    ghost use Rattle.std.specs.Prelude.{slice_index_or, false};

    ghost holds = { λ m page. slice_index_or m page false };

    fn has(&self, page: u32) -> bool {
        self.marks.get(page as usize).copied().unwrap_or(false)
    }
}

impl PageMarks {
    /// Marks that are all unset. An AllocError is want of memory.
    pub fn new(alloc: Global) -> Result<PageMarks, AllocError>
        ensures { IfOk result (λ marks. marks ≡ replicate PAGES false) }
    {
        let marks = vec![in alloc; false; MARKS]?;
        Ok(PageMarks { marks })
    }

    /// Sets the marks of these pages. It takes no memory.
    pub fn mark(&mut self, pages: &[u32])
        ensures size { length self.new ≡ length self.old }
        ensures marks { (p : ℕ) → p < length self.old →
            slice_index_or self.new p false ≡ (slice_index_or self.old p false || is_among
            pages.now p) }
    {
        mark_all(self.marks.as_mut_slice(), pages);
    }

    /// The first of these pages that isn't marked. It takes no memory.
    pub fn first_unmarked(&self, pages: &[u32]) -> Option<u32>
        ensures { result
            ≡ first_closed (λ page. slice_index_or self.now page false) pages.now }
    {
        for page in pages {
            if !self.has(*page) {
                return Some(*page);
            }
        }
        None
    }
}

// Sets the mark of a page.
fn mark_one(marks: &mut [bool], page: u32)
    ensures { marks.new ≡ set marks.old page true }
{
    let place = page as usize;
    if place < marks.len() {
        marks[place] = true;
    }
}

// Sets the marks of these pages.
fn mark_all(marks: &mut [bool], pages: &[u32])
    ensures size { length marks.new ≡ length marks.old }
    ensures marks { (p : ℕ) → p < length marks.old →
        slice_index_or marks.new p false ≡ (slice_index_or marks.old p false || is_among
        pages.now p) }
{
    for page in pages {
        mark_one(marks, *page);
    }
}
