//! What a line asks for.
use apportion::Share;
use arrayvec::ArrayVec;
use model::{Division, Exchange, Posting};

/// The most words of a line.
pub const MOST_WORDS: usize = 49;

/// The most postings of a line: after its first word, three words each.
pub const MOST_POSTINGS: usize = 16;

/// The most pairs of a line: after its first word, an account, a code and an amount.
pub const MOST_PAIRS: usize = 45;

/// What a line asks for. Numbers are as the line has them: the book tests them.
#[derive(Drop)]
pub enum Request {
    /// `post`, then account, code and signed amount, repeated.
    Post(ArrayVec<Posting, MOST_POSTINGS>),
    /// `conv`, from, to, code, code, amount.
    Convert(Exchange),
    /// `split`, account, code, amount, then pairs of account and weight.
    Split {
        division: Division,
        shares: ArrayVec<Share, MOST_PAIRS>,
    },
    /// `carry`, number, account.
    Carry {
        number: u64,
        account: u64,
    },
    /// `sweep`, account, column.
    Sweep {
        account: u64,
        column: u64,
    },
}
