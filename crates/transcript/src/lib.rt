//! The text of every line that the runner writes, byte for byte.
#![tactic(auto)]

mod answer;
mod audit;

pub use answer::{Amounts, Answer, Line};
pub use audit::{Cell, End, Heading, Open};
