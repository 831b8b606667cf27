//! Amounts that can be converted.
ghost use Rattle.std.specs.Prelude.{◌≤◌};
ghost use Rattle.money.specs.Conversions.{most_amount};

use crate::quantity::Minor;
use register::BookCause;

/// T: the most minor units that an amount may have.
pub const MOST_AMOUNT: i64 = 99_999_999_999;

/// An amount that can be converted.
#[derive(Clone, Copy)]
pub(crate) struct Amount {
    pub units: u64,
    ghost small: { units ≤ most_amount },
}

/// An amount outside 1 to `MOST_AMOUNT` is refused.
impl TryFrom<Minor> for Amount {
    ghost use Rattle.money.specs.Amounts.{Admits};

    type Error = BookCause;

    ghost try_from_gives = { Admits };

    fn try_from(amount: Minor) -> Result<Amount, BookCause> {
        if amount.0 < 1 || amount.0 > MOST_AMOUNT {
            return Err(BookCause::AmountOutOfRange);
        }
        Ok(Amount {
            units: amount.0 as u64,
        })
    }
}
