//! Apportionment by Hamilton's largest remainders, with any tie rule.
#![tactic(auto)]

mod account;
mod fraction;
mod laws;
mod limits;
mod share;
mod split;
mod tie;

pub use account::is_named;
pub use fraction::Fraction;
pub use laws::{reckoned_splits, splits_are_fair};
pub use limits::{MOST_SHARES, MOST_WEIGHT, check};
pub use share::{Candidate, Share};
pub use split::apportion;
pub use tie::{LargerWeight, SmallerPlace, TieRule};
