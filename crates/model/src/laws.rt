//! The theorems of this crate, each on the contract of a function that does nothing.
ghost use Rattle.model.specs.Conservation.{Conservation};
ghost use Rattle.model.specs.Examples.{ReckonedExamples, ReckonedRefusals, ReckonedSweeps, WorkedRun};
ghost use Rattle.model.specs.Laws.{EveryCall, Fitness};

use apportion::reckoned_splits;
use money::reckoned_conversions;

/// Nothing is lost or made: the law of every run of every book that opens fit.
pub fn conservation()
    ensures { Conservation }
{}

/// A book is fit exactly if every cell of its exchange account and of its docket account is zero when it opens.
pub fn fit_if_clear()
    ensures { Fitness }
{}

/// In every state: a refused call changes nothing; questions and parkings are never refused; an unfit book refuses all else.
pub fn every_call()
    ensures { EveryCall }
{}

/// A run reckoned by hand, call by call, so that the law speaks of something.
pub fn worked_run()
    ensures { WorkedRun }
{}

/// Sweeps reckoned by hand, of debts and beyond the most that a sweep moves.
pub fn reckoned_sweeps()
    ensures { ReckonedSweeps }
{}

/// Calls to which several refusals apply, and the one that stands.
pub fn reckoned_refusals()
    ensures { ReckonedRefusals }
{}

/// The conversions and the splits that were reckoned by hand are what the definitions give.
pub fn reckoned_examples()
    ensures { ReckonedExamples }
{
    reckoned_conversions();
    reckoned_splits();
}
