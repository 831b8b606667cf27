//! Conversions between currencies by their numbers.
ghost use Rattle.std.specs.Prelude.{◌≡◌};
ghost use Rattle.register.specs.Register.{book_answer};
ghost use Rattle.exports.specs.Exports.{converting_numbers};

use book::currency_at;
use money::{Conversion, Minor, convert};
use register::BookFault;

/// Converts an amount between the currencies of two numbers: refused 2, 3, 5, 9.
pub(crate) fn convert_numbers(
    source: u64,
    target: u64,
    amount: Minor,
) -> Result<Conversion, BookFault>
    ensures { book_answer result ≡ converting_numbers source target amount.0 }
{
    let from = currency_at(source)?;
    let to = currency_at(target)?;
    convert(from, to, amount)
}
