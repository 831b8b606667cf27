//! What a caller asks of a book. Accounts and currencies are numbers as a line gives them: the book tests them.
use money::Minor;

/// A leg of a post: an amount into a currency's money column of an account. Plus is debit.
#[derive(Clone, Copy, Default)]
pub struct Posting {
    pub account: u64,
    pub currency: u64,
    pub amount: Minor,
}

/// A conversion: an amount of the currency `source` leaves the account `from`, and what it converts to in the
/// currency `target` goes to the account `to`.
#[derive(Clone, Copy)]
pub struct Exchange {
    pub from: u64,
    pub to: u64,
    pub source: u64,
    pub target: u64,
    pub amount: Minor,
}

/// What a split takes, and from where. (The fields of a posting, which is a leg and may be a credit.)
#[derive(Clone, Copy)]
pub struct Division {
    pub account: u64,
    pub currency: u64,
    pub amount: Minor,
}
