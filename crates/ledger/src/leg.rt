//! One leg of an entry, and typed ways to make one.
ghost use Rattle.std.specs.Prelude.{◌≡◌};
ghost use Rattle.money.specs.Table.{number_of};
ghost use Rattle.ledger.specs.Columns.{fraction_number};
ghost use Rattle.ledger.specs.Entries.{in_range};
ghost use Rattle.ledger.specs.Legs.{leg};

use crate::column::FractionColumn;
use crate::limits::{ACCOUNTS, COLUMNS};
use money::{Currency, MOST_AMOUNT, Minor, Parts};

/// The last account.
pub const MOST_ACCOUNT: u8 = (ACCOUNTS - 1) as u8;

/// The last column.
pub const MOST_COLUMN: u8 = (COLUMNS - 1) as u8;

/// A cell, by account and column, and what it grows by: plus is debit.
// numbers and no `Column`: a list of records that a caller lends may hold any
#[derive(Clone, Copy, Default)]
pub struct Leg {
    pub account: u8,
    pub column: u8,
    pub amount: i64,
}

impl Leg {
    /// A leg in the money column of a currency.
    pub fn money(account: u8, currency: Currency, amount: Minor) -> Leg
        ensures { result ≡ leg account (number_of currency) amount.0 }
    {
        Leg {
            account,
            column: currency.number(),
            amount: amount.0,
        }
    }

    /// A leg in a fraction column.
    pub fn fraction(account: u8, column: FractionColumn, parts: Parts) -> Leg
        ensures { result ≡ leg account (fraction_number column) parts.0 }
    {
        Leg {
            account,
            column: column.number(),
            amount: parts.0,
        }
    }

    /// Whether account, column and amount are a leg's of an entry.
    pub fn is_in_range(self) -> bool
        ensures { result ≡ in_range self }
    {
        self.account <= MOST_ACCOUNT
            && self.column <= MOST_COLUMN
            && self.amount >= -MOST_AMOUNT
            && self.amount <= MOST_AMOUNT
    }
}
