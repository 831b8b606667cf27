//! A ledger that keeps its cells in a list of numbers lent to it.
#![tactic(auto)]

mod sheet;

pub use sheet::{MOST_ROOM, SHEET_CELLS, Sheet};
