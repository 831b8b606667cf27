//! The theorems of this crate, each on the contract of a function that does nothing.
ghost use Rattle.apportion.specs.Examples.{ReckonedSplits};
ghost use Rattle.apportion.specs.Laws.{AlwaysFair, OnlyFair};

/// Every split is fair, under every lawful tie rule and with any number of shares, and nothing else is.
pub fn splits_are_fair()
    ensures fair { AlwaysFair }
    ensures only { OnlyFair }
{}

/// The splits that were reckoned by hand are what the definitions give.
pub fn reckoned_splits()
    ensures { ReckonedSplits }
{}
