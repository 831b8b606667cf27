//! Refusals that several calls share.
ghost use Rattle.std.specs.Prelude.{◌≡◌};
ghost use Rattle.register.specs.Register.{book_answer};
ghost use Rattle.model.specs.Step.{account_at, fitness};
ghost use Rattle.book.specs.View.{state_of};

use super::Book;
use apportion::is_named;
use ledger::Ledger;
use register::{BookCause, BookFault};

/// Refused 4 unless the account is a named one.
pub(super) fn check_named(account: u64) -> Result<(), BookFault>
    ensures { book_answer result ≡ account_at account 0 }
{
    if !is_named(account) {
        return Err(BookCause::AccountNotNamed.into());
    }
    Ok(())
}

impl<L: Ledger> Book<L> {
    /// Refused 1 if the book was not fit when it was opened.
    pub(super) fn check_fit(&self) -> Result<(), BookFault>
        ensures { book_answer result ≡ fitness (state_of L.Balances self.now) }
    {
        if !self.fit {
            return Err(BookCause::Unfit.into());
        }
        Ok(())
    }
}
