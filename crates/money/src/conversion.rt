//! Conversions between the currencies, through the euro, with what rounding leaves.
ghost use Rattle.std.specs.Prelude.{◌≡◌, ◌*◌, ◌^◌, ◌<◌, ◌≤◌, IfOk, unsigned_abs};
ghost use Rattle.register.specs.Register.{book_answer};
ghost use Rattle.money.specs.Conversions.{exact_from, exact_into, exchanged, booked, converted, converting, route_of, most_mills, rounded_to};
ghost use Rattle.money.specs.Laws.{Joins, Lossless, LosslessBetween};
ghost use Rattle.money.specs.Table.{rate, parts};

use crate::amount::{Amount, MOST_AMOUNT};
use crate::currency::{Currency, National};
use crate::quantity::{Mills, Minor, Parts};
use crate::rounding::Rounded;
use register::{BookCause, BookFault};

/// From which currency into which: there is no step between two national currencies but through the euro.
#[derive(Clone, Copy)]
pub enum Route {
    IntoEuro(National),
    FromEuro(National),
    Between(National, National),
}

/// What a conversion books, and the residue of each rounding on its way. A euro residue counts parts of
/// 1 ÷ (10 × R) cent of the first currency, a national residue parts of 1 ÷ P minor unit of the second.
#[derive(Clone, Copy, PartialEq, Eq)]
pub enum Conversion {
    IntoEuro {
        booked: Minor,
        euro: Parts,
    },
    FromEuro {
        booked: Minor,
        national: Parts,
    },
    Between {
        mills: Mills,
        euro: Parts,
        booked: Minor,
        national: Parts,
    },
}

impl Conversion {
    /// What is booked, in minor units of the currency converted to.
    pub fn booked(self) -> Minor
        ensures { result ≡ booked self }
    {
        match self {
            Conversion::IntoEuro { booked, .. }
            | Conversion::FromEuro { booked, .. }
            | Conversion::Between { booked, .. } => booked,
        }
    }
}

impl Route {
    /// The route between two currencies; equal ones are refused.
    pub fn new(from: Currency, to: Currency) -> Result<Route, BookFault>
        ensures value { book_answer result ≡ route_of from to }
        ensures joins { Joins from to result }
    {
        match (from, to) {
            (Currency::Euro, Currency::National(to)) => Ok(Route::FromEuro(to)),
            (Currency::National(from), Currency::Euro) => Ok(Route::IntoEuro(from)),
            (Currency::National(from), Currency::National(to)) if from != to => {
                Ok(Route::Between(from, to))
            }
            _ => Err(BookCause::EqualCurrencies.into()),
        }
    }

    /// Converts an amount along the route. An amount outside 1 to `MOST_AMOUNT` is refused, and so is one
    /// that would book more than that.
    pub fn convert(self, amount: Minor) -> Result<Conversion, BookFault>
        ensures value { book_answer result ≡ converted self amount.0 }
        ensures lossless { IfOk result (λ c. Lossless self (unsigned_abs amount.0) c) }
    {
        let conversion = self.exchange(Amount::try_from(amount)?);
        if conversion.booked().0 > MOST_AMOUNT {
            return Err(BookCause::BookedTooMuch.into());
        }
        Ok(conversion)
    }

    /// The arithmetic of a conversion, however much it books.
    fn exchange(self, amount: Amount) -> Conversion
        ensures { result ≡ exchanged self amount.units }
    {
        match self {
            Route::IntoEuro(from) => {
                let cents = Rounded::nearest(amount.units * from.parts(), 10 * from.rate());
                Conversion::IntoEuro {
                    booked: Minor(cents.whole as i64),
                    euro: cents.residue,
                }
            }
            Route::FromEuro(to) => {
                let units = units_into(to, 10 * amount.units);
                Conversion::FromEuro {
                    booked: Minor(units.whole as i64),
                    national: units.residue,
                }
            }
            Route::Between(from, to) => {
                let mills = mills_from(from, amount);
                let units = units_into(to, mills.whole);
                Conversion::Between {
                    mills: Mills(mills.whole),
                    euro: mills.residue,
                    booked: Minor(units.whole as i64),
                    national: units.residue,
                }
            }
        }
    }
}

/// The mills that an amount of a national currency comes to on its way into another.
fn mills_from(from: National, amount: Amount) -> Rounded
    ensures value { result ≡ rounded_to (exact_from from amount.units) (rate from) }
    ensures small { result.whole ≤ most_mills }
{
    Rounded::nearest(amount.units * from.parts(), from.rate())
}

/// The minor units of a national currency that mills come to.
fn units_into(to: National, mills: u64) -> Rounded
    requires { mills ≤ most_mills }
    ensures value { result ≡ rounded_to (exact_into to mills) (parts to) }
    ensures small { result.whole < 2 ^ 63 }
{
    Rounded::nearest(mills * to.rate(), to.parts())
}

/// Converts an amount between two currencies, or says why not.
pub fn convert(from: Currency, to: Currency, amount: Minor) -> Result<Conversion, BookFault>
    ensures value { book_answer result ≡ converting from to amount.0 }
    ensures lossless { IfOk result (λ c. LosslessBetween from to (unsigned_abs amount.0) c) }
{
    Route::new(from, to)?.convert(amount)
}
