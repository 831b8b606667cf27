//! Lines in, transcript out: each line is carried out on a book and answered, and the audit follows.
#![tactic(auto)]

mod answers;
mod audit;
mod streams;
mod text;
mod whole;

pub use audit::write_audit;
pub use streams::run_streams;
pub use whole::{MOST_INPUT, run};
