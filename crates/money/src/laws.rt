//! The theorems of this crate, each on the contract of a function that does nothing.
ghost use Rattle.money.specs.Examples.{ReckonedConversions};
ghost use Rattle.money.specs.Rounding.{HalfUpIsNearest};
ghost use Rattle.money.specs.Table.{PartsFollowRates, TableNames};

/// Half-up is the nearest whole number, the upper one at exactly half, and the only such, for every divisor.
pub fn half_up_is_nearest()
    ensures { HalfUpIsNearest }
{}

/// Each number 0 to 11 and each code of the table names one currency, and no others name any.
pub fn names_are_unique()
    ensures { TableNames }
{}

/// The parts that fractions are counted in follow from the legal rates.
pub fn parts_follow_rates()
    ensures { PartsFollowRates }
{}

/// The conversions that were reckoned by hand are what the definitions give.
pub fn reckoned_conversions()
    ensures { ReckonedConversions }
{}
