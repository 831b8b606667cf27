//! The refusal register: why each part of the engine refuses, under which number, and where.
#![tactic(auto)]

mod cause;
mod fault;
mod laws;

pub use cause::{BookCause, LedgerCause, ReaderCause};
pub use fault::{BookFault, Fault, LedgerFault, Part, Placed, ReaderFault};
pub use laws::register_names_each_fault;
