//! Legs on their way into an entry.
use arrayvec::ArrayVec;
use ledger::{Leg, MOST_LEGS};

mod legs;
mod transfers;

pub(crate) use transfers::Accounts;

/// Legs drawn up one after the other. A leg out of range, or one more than an entry may have, voids the draft, and it
/// then has none.
#[derive(Drop)]
pub(crate) struct Draft {
    legs: Option<ArrayVec<Leg, MOST_LEGS>>,
}
