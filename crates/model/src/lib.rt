//! What a book does, as definitions, and the law over its whole runs.
#![tactic(auto)]

mod audit;
mod laws;
mod record;
mod request;

pub use audit::Audit;
pub use laws::{
    conservation, every_call, fit_if_clear, reckoned_examples, reckoned_refusals, reckoned_sweeps,
    worked_run,
};
pub use record::{Record, Standing};
pub use request::{Division, Exchange, Posting};
