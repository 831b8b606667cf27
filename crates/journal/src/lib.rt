//! The journal: a ledger that writes each leg as one record into a list lent to it.
#![tactic(auto)]

mod journal;
mod sums;

pub use journal::{Journal, MOST_RECORDS};
