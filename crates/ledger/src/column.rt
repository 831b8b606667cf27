//! The columns of a ledger: the money of each currency, and fractions of its minor units.
ghost use Rattle.std.specs.Prelude.{◌≡◌};
ghost use Rattle.ledger.specs.Columns.{fraction_number, column_number, whole_parts, currency_of, fraction_numbered, national_numbered};

use money::{Currency, National};

/// A column that counts parts of a minor unit, which rounding leaves.
#[derive(Clone, Copy)]
pub enum FractionColumn {
    /// The euro fraction of a national currency: parts of 1 ÷ (10 × R) cent.
    Euro(National),
    /// The national fraction of a national currency: parts of 1 ÷ P minor unit.
    National(National),
}

/// A column of a ledger.
#[derive(Clone, Copy)]
pub enum Column {
    /// Minor units of a currency.
    Money(Currency),
    Fraction(FractionColumn),
}

/// A currency's euro fraction is as many columns after its money, and its national fraction as many more.
const EURO_FRACTIONS: u8 = 11;

const NATIONAL_FRACTIONS: u8 = 22;

/// The national currency of that number in the table.
fn national(number: u64) -> Option<National>
    ensures { result ≡ national_numbered number }
{
    match Currency::from_number(number) {
        Some(Currency::National(currency)) => Some(currency),
        _ => None,
    }
}

// Named methods for the numbers of columns, as for those of currencies.
impl FractionColumn {
    /// The number of the column, 12 to 33.
    pub fn number(self) -> u8
        ensures { result ≡ fraction_number self }
    {
        match self {
            FractionColumn::Euro(currency) => {
                EURO_FRACTIONS + Currency::National(currency).number()
            }
            FractionColumn::National(currency) => {
                NATIONAL_FRACTIONS + Currency::National(currency).number()
            }
        }
    }

    /// The fraction column of that number; there is none below 12 or above 33.
    pub fn from_number(number: u64) -> Option<FractionColumn>
        ensures { result ≡ fraction_numbered number }
    {
        if number <= NATIONAL_FRACTIONS as u64 {
            let currency = national(number.saturating_sub(EURO_FRACTIONS as u64))?;
            Some(FractionColumn::Euro(currency))
        } else {
            let currency = national(number - NATIONAL_FRACTIONS as u64)?;
            Some(FractionColumn::National(currency))
        }
    }

    /// D: the parts to a whole minor unit.
    pub fn parts(self) -> u64
        ensures { result ≡ whole_parts self }
    {
        match self {
            FractionColumn::Euro(currency) => 10 * currency.rate(),
            FractionColumn::National(currency) => currency.parts(),
        }
    }

    /// The currency of whose minor unit the column counts parts.
    pub fn currency(self) -> Currency
        ensures { result ≡ currency_of self }
    {
        match self {
            FractionColumn::Euro(_) => Currency::Euro,
            FractionColumn::National(currency) => Currency::National(currency),
        }
    }
}

impl Column {
    /// The number of the column, 0 to 33.
    pub fn number(self) -> u8
        ensures { result ≡ column_number self }
    {
        match self {
            Column::Money(currency) => currency.number(),
            Column::Fraction(column) => column.number(),
        }
    }
}
