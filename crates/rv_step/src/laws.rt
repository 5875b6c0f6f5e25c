ghost use Rattle.rv_step.specs.Laws.{StepReadsItsFoot, RunReadsItsFeet};
ghost use Rattle.rv_step.specs.Acts.{ActsAreSound, StepKeeps, StepHaltsWithWord, StepIsSmall};

/// What holds of the act of a state whose pc is a multiple of 4.
pub fn acts_are_sound()
    ensures { ActsAreSound }
{}

/// A step depends on the pages of its footprint alone.
pub fn step_reads_its_foot()
    ensures { StepReadsItsFoot }
{}

/// A step changes the pages of its footprint alone, and keeps what every run's states have.
pub fn step_keeps()
    ensures { StepKeeps }
{}

/// The exit code of a step that halts, from a state that is ready, is a word.
pub fn step_halts_with_word()
    ensures { StepHaltsWithWord }
{}

/// A step whose pc is a multiple of 4 costs at most 257, and touches at most six pages.
pub fn step_is_small()
    ensures { StepIsSmall }
{}

/// A run depends on the pages of its footprints alone.
pub fn run_reads_its_feet()
    ensures { RunReadsItsFeet }
{}
