//! The books that the programs run their inputs on.
#![tactic(auto)]

mod books;

pub use books::{RECORDS, open_journal, open_sheet};

#[cfg(test)]
mod tests;
