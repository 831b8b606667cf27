//! The causes of refusals, one enum for each part of the engine. Each case has its number in the register.

/// Why the reader refuses a line or the whole input.
#[derive(Clone, Copy)]
pub enum ReaderCause {
    /// A word is not of the kind that its place in the line asks for, or a code is not in the currency table.
    UnreadableWord = 19,
    /// A line has too many words, an unknown first word or a wrong number of words.
    UnknownPattern = 20,
    /// The input is longer than the runner takes.
    InputTooLong = 22,
}

/// Why the book refuses a call.
#[derive(Clone, Copy)]
pub enum BookCause {
    /// A cell of the exchange account or the docket account was not zero when the book was opened.
    Unfit = 1,
    /// A currency's number is above 11.
    UnknownCurrency = 2,
    /// A conversion has the same currency on both sides.
    EqualCurrencies = 3,
    /// An account is not one of the named accounts.
    AccountNotNamed = 4,
    /// An amount is 0 where it may not be, negative where it may not be, or too large.
    AmountOutOfRange = 5,
    /// A post has too few or too many legs.
    LegCount = 6,
    /// A currency's legs do not sum to zero.
    Unbalanced = 7,
    /// A split has no shares or too many, too large a weight, or no weight at all.
    Shares = 8,
    /// A conversion would book more than the largest amount.
    BookedTooMuch = 9,
    /// The docket has no room for another record.
    DocketFull = 10,
    /// The last slip number is given.
    SlipsExhausted = 11,
    /// A slip bears another book's mark, or its number is not on the docket as out.
    ForeignSlip = 12,
    /// A number is not on the docket.
    NotOnDocket = 13,
    /// A number is on the docket as out, and not as parked.
    SlipIsOut = 14,
    /// A sweep would move nothing.
    NothingToSweep = 15,
    /// A column is not a fraction column.
    NotAFractionColumn = 16,
    /// A list handed in is too short for the shares or the fractions of a split.
    ListsTooShort = 21,
}

/// Why a ledger refuses an entry.
#[derive(Clone, Copy)]
pub enum LedgerCause {
    /// The entry has more legs than the ledger has room.
    NoRoom = 17,
    /// A leg would leave its cell below its floor or above its ceiling.
    OutsideLimits = 18,
}
