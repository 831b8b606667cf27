//! Bytes to requests: an input is cut into lines, a line into words, and the words are read as a request.
#![tactic(auto)]

mod laws;
mod line;
mod lines;
mod number;
mod pattern;
mod request;
mod split;
mod word;

pub use laws::{lines_rejoin, numbers_have_one_spelling, words_cover_their_line, worked_lines};
pub use line::cut_line;
pub use lines::Lines;
pub use pattern::read_line;
pub use request::{MOST_PAIRS, MOST_POSTINGS, MOST_WORDS, Request};
