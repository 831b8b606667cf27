//! The docket: the slips that a book has given and whose residues no account has taken yet.
#![tactic(auto)]

mod docket;

pub use docket::{Docket, MOST_RECORDS};
