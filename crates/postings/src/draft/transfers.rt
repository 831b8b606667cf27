//! Pairs of legs that move an amount from one account to another.
ghost use Rattle.std.specs.Prelude.{◌≡◌};
ghost use Rattle.ledger.specs.Columns.{fraction_number};
ghost use Rattle.money.specs.Table.{number_of};
ghost use Rattle.model.specs.Docket.{residues_of};
ghost use Rattle.model.specs.Postings.{transfer, transfers};
ghost use Rattle.postings.specs.Drafts.{drawn, with_legs};

use super::Draft;
use ledger::FractionColumn;
use model::Record;
use money::{Currency, Minor, Parts};

/// The account that an amount leaves, and the one that it goes to.
#[derive(Clone, Copy)]
pub(crate) struct Accounts {
    from: u64,
    to: u64,
}

impl Accounts {
    /// From one account to another.
    pub(crate) fn new(from: u64, to: u64) -> Accounts
        ensures { result ≡ record { from = from; to = to } }
    {
        Accounts { from, to }
    }
}

impl Draft {
    /// An amount in a column from one account to another.
    fn add_transfer(&mut self, accounts: Accounts, column: u8, amount: i64)
        ensures { drawn self.new ≡ with_legs (drawn self.old) (transfer accounts.from accounts.to column amount) }
    {
        self.add_leg(accounts.from, column, -(amount as i128));
        self.add_leg(accounts.to, column, amount as i128);
    }

    // Minor units and parts each have a way in of their own, so that neither gets into a column of the other.

    /// Minor units of a currency from one account to another.
    pub(crate) fn add_money(&mut self, accounts: Accounts, currency: Currency, amount: Minor)
        ensures { drawn self.new ≡ with_legs (drawn self.old) (transfer accounts.from accounts.to (number_of currency) amount.0) }
    {
        self.add_transfer(accounts, currency.number(), amount.0);
    }

    /// Parts in a fraction column from one account to another.
    fn add_parts(&mut self, accounts: Accounts, column: FractionColumn, parts: Parts)
        ensures { drawn self.new ≡ with_legs (drawn self.old) (transfer accounts.from accounts.to (fraction_number column) parts.0) }
    {
        self.add_transfer(accounts, column.number(), parts.0);
    }

    /// The residues of a record, euro first, from one account to another. The euro itself has no fractions.
    pub(crate) fn add_residues(&mut self, accounts: Accounts, docketed: Record)
        ensures { drawn self.new ≡ with_legs (drawn self.old) (transfers accounts.from accounts.to (residues_of docketed)) }
    {
        if let Currency::National(currency) = docketed.from {
            self.add_parts(accounts, FractionColumn::Euro(currency), docketed.euro);
        }
        if let Currency::National(currency) = docketed.to {
            self.add_parts(
                accounts,
                FractionColumn::National(currency),
                docketed.national,
            );
        }
    }
}
