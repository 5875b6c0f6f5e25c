ghost use Rattle.std.specs.Prelude.{◌≡◌, ◌+◌, ◌<◌, ◌≤◌, ℕ, List, IsTrue, IsFalse, Some, IfOk, OnOk, OnErr};
ghost use Rattle.std.specs.Arc.{arc_value};
ghost use Rattle.page_core.specs.Images.{Image as PlainImage};
ghost use Rattle.elf_image.specs.Loaded.{image_of};
ghost use Rattle.rv_step.specs.Runs.{start};
ghost use Rattle.receipt_types.specs.Bundles.{item};
ghost use Rattle.executor.specs.Proving.{cut_seals};
ghost use Rattle.executor.specs.Cutting.{CutsRun, IsWhole};
ghost use Rattle.executor.specs.Giving.{Gives};
ghost use Rattle.receipt_types.specs.declared.sizes.TheConstants.{MOST_SEALS};

use crate::beginning::Beginning;
use crate::cut::{Cut, copied};
use crate::limits::Limits;
use crate::segment_meter::SegmentMeter;
use byte_cursor::WordList;
use digest_core::Digester;
use elf_image::Image;
use flat_machine::Flat;
use page_tree::PageTree;
use receipt_types::MOST_SEALS;
use rv_step::Outcome;
use std::alloc::{AllocError, Global};
use std::marker::{Brand, Model};
use std::sync::Arc;
use std::sync::ledger::{Blank, Ledger};

/// What an executor gives next.
#[derive(Drop)]
pub enum Next<D: Digester> {
    /// The next segment.
    Cut(Arc<Cut<D>, Global>),
    /// No segment is left, and the run has this outcome.
    Ended(Outcome),
    /// 65,535 cuts were given, and there are more segments.
    TooManySeals,
}

/// The run of an image and input words under limits, and how far it is cut. Contracts see the run, the limits, how many
/// cuts were given, and the segment that is under way; `CutsRun` says that these are the cuts of the run of an image and
/// words.
///
/// A call that is refused for want of memory leaves it after some further steps of the same segment, and may be repeated.
#[derive(Drop)]
pub struct Executor<D: Digester> {
    flat: Flat,
    limits: Limits,
    number: u32,
    beginning: Beginning<D>,
    steps: u32,
    meter: SegmentMeter,
    outcome: Option<Outcome>,
    alloc: Global,
}

impl<D: Digester> Model for Executor<D> {
    ghost use Rattle.executor.specs.Cutting as plain;

    ghost Value = { plain.Cutting };

    ghost view = { λ e.
        record {
          going = e.flat;
          limits = e.limits;
          number = e.number;
          beginning = e.beginning;
          steps = e.steps;
          meter = e.meter.segment;
          outcome = e.outcome;
        } };

    ghost invariant = { λ e.
        plain.IsCutting
        (record {
          going = e.flat;
          limits = e.limits;
          number = e.number;
          beginning = e.beginning;
          steps = e.steps;
          meter = e.meter.segment;
          outcome = e.outcome;
        }) };
}

impl<D: Digester> Executor<D> {
    /// The run of an image and input words under limits, of which nothing is cut yet. An AllocError is want of memory.
    pub fn new(
        alloc: Global,
        image: Image,
        words: WordList,
        limits: Limits,
    ) -> Result<Executor<D>, AllocError>
        ensures start { IfOk result (λ executor. executor.number ≡ 0) }
        ensures limits { IfOk result (λ executor. executor.limits ≡ limits) }
        ensures stands { IfOk result (λ executor. CutsRun executor (image_of image) words.items) }
    {
        let beginning = Beginning {
            pc: image.entry,
            read: 0,
            tree: PageTree::from_map(alloc, &image.map)?,
        };
        let mut flat = Flat::new(alloc, image, words);
        flat.lift()?;
        Ok(Executor {
            flat,
            limits,
            number: 0,
            beginning,
            steps: 0,
            meter: SegmentMeter::new(alloc, limits.cycles(), limits.pages())?,
            outcome: None,
            alloc,
        })
    }

    /// The next segment of the run; or the run's outcome, where none is left; or that there are more than 65,535. Each call
    /// after an outcome, and each after TooManySeals, answers the same.
    pub fn next(&mut self) -> Result<Next<D>, AllocError>
        ensures stands { (image : PlainImage) (words : List ℕ) → CutsRun self.old image words →
            CutsRun self.new image words }
        ensures gives { IfOk result
            (λ next. (image : PlainImage) (words : List ℕ) → CutsRun self.old image words →
            Gives D.digest_of self.old.limits (start image
            words) self.old.number self.new.number next) }
        ensures limits { self.new.limits ≡ self.old.limits }
        ensures refused { OnErr result (self.new.number ≡ self.old.number) }
    {
        while self.advance()? {}
        if self.steps == 0 {
            match self.outcome {
                Some(outcome) => return Ok(Next::Ended(outcome)),
                None => unreachable!(),
            }
        }
        if self.number == MOST_SEALS {
            return Ok(Next::TooManySeals);
        }
        let cut = self.cut()?;
        self.turn::<Brand>(Blank::new(1))?;
        Ok(Next::Cut(cut))
    }

    // Does the next steps of the segment that is under way, one at least, where the run goes on after them; else the segment
    // is whole.
    fn advance(&mut self) -> Result<bool, AllocError>
        ensures stands { (image : PlainImage) (words : List ℕ) → CutsRun self.old image words →
            CutsRun self.new image words }
        ensures same { (self.new.limits ≡ self.old.limits) × (self.new.number ≡ self.old.number) }
        ensures went { IfOk result
            (λ went. IsTrue went →
            (self.old.going.cycles < self.new.going.cycles) × (self.new.going.cycles ≤
            self.new.limits.limit)) }
        ensures whole { IfOk result
            (λ went. IsFalse went → (image : PlainImage) (words : List ℕ) →
            (stands : CutsRun self.new image words) → IsWhole (start image
            words) self.new stands.segment) }
    {
        self.go_quickly();
        self.go_on()
    }

    // Does the next steps of the segment in place, as long as each merely goes on in pages that it has touched, within the
    // limits on its cost and on the run's.
    fn go_quickly(&mut self)
        ensures stands { (image : PlainImage) (words : List ℕ) → CutsRun self.old image words →
            CutsRun self.new image words }
        ensures same { (self.new.limits ≡ self.old.limits) × (self.new.number ≡ self.old.number) }
        ensures more { self.old.going.cycles ≤ self.new.going.cycles }
    {
        if self.outcome.is_some() {
            return;
        }
        let left = self.limits.limit() - self.flat.cycles();
        let done = self
            .flat
            .go_quickly(&self.meter, self.meter.room().min(left)) as u32;
        self.steps += done;
        self.meter.add_quick(done);
    }

    // Does the next step, where it belongs to the segment that is under way and the run goes on after it; else the segment
    // is whole.
    fn go_on(&mut self) -> Result<bool, AllocError>
        ensures stands { (image : PlainImage) (words : List ℕ) → CutsRun self.old image words →
            CutsRun self.new image words }
        ensures same { (self.new.limits ≡ self.old.limits) × (self.new.number ≡ self.old.number) }
        ensures went { IfOk result
            (λ went. IsTrue went →
            (self.old.going.cycles < self.new.going.cycles) × (self.new.going.cycles ≤
            self.new.limits.limit)) }
        ensures whole { IfOk result
            (λ went. IsFalse went → (image : PlainImage) (words : List ℕ) →
            (stands : CutsRun self.new image words) → IsWhole (start image
            words) self.new stands.segment) }
    {
        if self.outcome.is_some() {
            return Ok(false);
        }
        let looked = self.flat.look();
        if !self.meter.fits(&looked.foot, looked.cost) {
            return Ok(false);
        }
        self.meter.reserve()?;
        match self.flat.step(self.limits.limit())? {
            None => {
                self.meter.add(&looked.foot, looked.cost);
                self.steps += 1;
                Ok(true)
            }
            Some(Outcome::Halted(code)) => {
                self.meter.add(&looked.foot, looked.cost);
                self.steps += 1;
                self.outcome = Some(Outcome::Halted(code));
                Ok(false)
            }
            Some(Outcome::Faulted { fault, pc, step }) => {
                self.outcome = Some(Outcome::Faulted { fault, pc, step });
                Ok(false)
            }
            Some(Outcome::OverLimit { step }) => {
                self.outcome = Some(Outcome::OverLimit { step });
                Ok(false)
            }
        }
    }

    // Goes over to the next segment, once the one that is under way is cut. It begins where the run is; where the run has
    // an outcome there is no next one.
    fn turn<L: Ledger>(&mut self, blank: Blank) -> Result<(), AllocError>
        requires some { 1 ≤ self.old.steps }
        requires few { self.old.number < MOST_SEALS }
        requires whole { (image : PlainImage) (words : List ℕ) →
            (stands : CutsRun self.old image words) → IsWhole (start image
            words) self.old stands.segment }
        requires name { blank.name ≡ L.name }
        requires parts { blank.parts ≡ L.parts }
        requires shared { 0 < L.parts }
        ensures stands { (image : PlainImage) (words : List ℕ) → CutsRun self.old image words →
            CutsRun self.new image words }
        ensures limits { self.new.limits ≡ self.old.limits }
        ensures turned { OnOk result (self.new.number ≡ self.old.number + 1) }
        ensures refused { OnErr result (self.new.number ≡ self.old.number) }
    {
        if self.outcome.is_some() {
            self.number += 1;
            self.steps = 0;
            return Ok(());
        }
        let beginning = self
            .beginning
            .next::<L>(self.alloc, &self.flat, self.meter.pages(), blank)?;
        self.meter.clear()?;
        self.beginning = beginning;
        self.number += 1;
        self.steps = 0;
        Ok(())
    }

    // The cut of the segment that is under way, which is whole and has a step.
    fn cut(&self) -> Result<Arc<Cut<D>, Global>, AllocError>
        requires some { 1 ≤ self.now.steps }
        requires whole { (image : PlainImage) (words : List ℕ) →
            (stands : CutsRun self.now image words) → IsWhole (start image
            words) self.now stands.segment }
        ensures number { IfOk result (λ cut. (arc_value cut).number ≡ self.now.number) }
        ensures seal { IfOk result
            (λ cut. (image : PlainImage) (words : List ℕ) → CutsRun self.now image words →
            item (cut_seals D.digest_of self.now.limits
            (start image words)) self.now.number ≡ Some (arc_value cut).seal) }
    {
        let beginning = &self.beginning;
        let (_, taken) = self.flat.read().split_at(beginning.read);
        let cut = Cut {
            number: self.number,
            pc: beginning.pc,
            steps: self.steps,
            words: copied(self.alloc, taken)?,
            pages: copied(self.alloc, self.meter.pages())?,
            tree: beginning.tree.share()?,
            alloc: self.alloc,
        };
        match Arc::new(self.alloc, cut) {
            Ok(cut) => Ok(cut),
            Err(_) => Err(AllocError),
        }
    }
}
