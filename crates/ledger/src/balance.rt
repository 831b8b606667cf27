//! Which legs make an entry.
ghost use Rattle.std.specs.Prelude.{◌≡◌};
ghost use Rattle.ledger.specs.Entries.{all_in_range, zero_at_each, is_zero, is_entry};
ghost use Rattle.ledger.specs.Legs.{column_sum};

use crate::entry::MOST_LEGS;
use crate::leg::Leg;
use crate::sums::column_sum;

fn all_in_range(legs: &[Leg]) -> bool
    ensures { result ≡ all_in_range legs.now }
{
    for leg in legs {
        if !leg.is_in_range() {
            return false;
        }
    }
    true
}

/// Whether the legs sum to zero in a column.
fn zero_at(legs: &[Leg], column: u8) -> bool
    ensures { result ≡ is_zero (column_sum legs.now column) }
{
    column_sum(legs, column as u64) == 0
}

/// Whether the legs sum to zero in the column of each of them, and so in every column.
fn zero_at_each(legs: &[Leg]) -> bool
    ensures { result ≡ zero_at_each legs.now legs.now }
{
    for leg in legs {
        if !zero_at(legs, leg.column) {
            return false;
        }
    }
    true
}

/// Whether the legs make an entry.
pub(crate) fn is_entry(legs: &[Leg]) -> bool
    ensures { result ≡ is_entry legs.now }
{
    legs.len() <= MOST_LEGS && all_in_range(legs) && zero_at_each(legs)
}
