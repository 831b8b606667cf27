//! What the requests of lines do with a book, and what they answer.
#![tactic(auto)]

mod laws;
mod performing;
mod reply;
mod slips;

pub use laws::no_slip_stays_out;
pub use performing::{perform, perform_line};
pub use reply::Reply;
pub use slips::{carry_number, convert_and_park};
