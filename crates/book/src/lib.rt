//! The book: it owns a ledger, gives slips for what its conversions leave, and keeps a docket of them.
#![tactic(auto)]

mod book;
mod slip;

pub use book::{Book, currency_at};
pub use slip::Slip;
