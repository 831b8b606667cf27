//! The book's own accounts.

/// The account through which money is exchanged.
pub const EXCHANGE_ACCOUNT: u64 = 0;

/// The account that holds the residues of the docket's records.
pub const DOCKET_ACCOUNT: u64 = 1;
