//! Currencies by the numbers that a line gives.
ghost use Rattle.std.specs.Prelude.{◌≡◌};
ghost use Rattle.register.specs.Register.{book_answer};
ghost use Rattle.model.specs.Step.{currency_at};

use money::Currency;
use register::{BookCause, BookFault};

/// The currency of a number: refused 2.
pub fn currency_at(number: u64) -> Result<Currency, BookFault>
    ensures { book_answer result ≡ currency_at number 0 }
{
    Currency::from_number(number).ok_or(BookCause::UnknownCurrency.into())
}
