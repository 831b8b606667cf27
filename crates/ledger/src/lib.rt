//! Entries, and what every ledger means and does with them.
#![tactic(auto)]

mod balance;
mod column;
mod entry;
mod laws;
mod ledger;
mod leg;
mod limits;
mod sums;
mod verdict;

pub use column::{Column, FractionColumn};
pub use entry::{Entry, MOST_LEGS};
pub use laws::columns_are_numbered;
pub use ledger::{Balances, Ledger, enter};
pub use leg::{Leg, MOST_ACCOUNT, MOST_COLUMN};
pub use limits::{ACCOUNTS, COLUMNS, MOST_HELD, ROW_CELLS, ceiling_of, floor_of, is_cell};
pub use sums::{column_sum, rise};
pub use verdict::{check, check_room};
