ghost use Rattle.cache_book.specs.Laws.{StepIsLegal, StepIsDetermined, StepIsByItsCaller};
ghost use Rattle.cache_book.specs.Laws.{TicketsAreNew, PermitsAreOwed, PermitsOutliveAStep};
ghost use Rattle.cache_book.specs.Laws.{NoCallIsStuck, PermitOutlivesOthers, RunIsLegal};
ghost use Rattle.cache_book.specs.Laws.{RunIsDetermined, RunFollows};

/// A step from a legal state leaves a legal state.
pub fn step_is_legal()
    ensures { StepIsLegal }
{}

/// A step is a function of state and call, but for want of memory.
pub fn step_is_determined()
    ensures { StepIsDetermined }
{}

/// A step adds events of its caller alone.
pub fn step_is_by_its_caller()
    ensures { StepIsByItsCaller }
{}

/// A look hands out each ticket once, and none that was started before.
pub fn tickets_are_new()
    ensures { TicketsAreNew }
{}

/// The permits that a look hands out may be settled.
pub fn permits_are_owed()
    ensures { PermitsAreOwed }
{}

/// A step that does not spend a permit leaves it as it is.
pub fn permits_outlive_a_step()
    ensures { PermitsOutliveAStep }
{}

/// No call is stuck: in a legal state, that it has no answer but want of memory is refuted.
pub fn no_call_is_stuck()
    ensures { NoCallIsStuck }
{}

/// What other callers do leaves a permit as it is: it may be settled, or its epoch is over.
pub fn permit_outlives_others()
    ensures { PermitOutlivesOthers }
{}

/// A run of calls on a book that was opened leaves a legal state.
pub fn run_is_legal()
    ensures { RunIsLegal }
{}

/// The answers of a run are those of the machine, but for want of memory.
pub fn run_is_determined()
    ensures { RunIsDetermined }
{}

/// The state that a run leaves follows.
pub fn run_follows()
    ensures { RunFollows }
{}
