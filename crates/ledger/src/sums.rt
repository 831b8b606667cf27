//! What legs add to a column and to a cell, however many they are.
ghost use Rattle.std.specs.Prelude.{◌≡◌, ◌*◌, ◌^◌, ◌≤◌, length, unsigned_abs};
ghost use Rattle.ledger.specs.Legs.{in_column, in_cell, column_sum, rise};

use crate::leg::Leg;

/// What one leg adds to a column.
fn in_column(leg: Leg, column: u64) -> i64
    ensures { result ≡ in_column leg column }
{
    if leg.column as u64 == column {
        leg.amount
    } else {
        0
    }
}

/// What one leg adds to a cell.
fn in_cell(leg: Leg, account: u64, column: u64) -> i64
    ensures { result ≡ in_cell leg account column }
{
    if leg.account as u64 == account {
        in_column(leg, column)
    } else {
        0
    }
}

// Loops, since of a `sum` of signed numbers a proof gets no bound; and two, since one over a closure would need a law on it.

/// The legs' sum in a column.
pub fn column_sum(legs: &[Leg], column: u64) -> i128
    ensures value { result ≡ column_sum legs.now column }
    ensures bound { unsigned_abs result ≤ length legs.now * 2 ^ 63 }
{
    let mut sum = 0i128;
    for leg in legs {
        sum += in_column(*leg, column) as i128;
    }
    sum
}

/// What the legs add to a cell.
pub fn rise(legs: &[Leg], account: u64, column: u64) -> i128
    ensures value { result ≡ rise legs.now account column }
    ensures bound { unsigned_abs result ≤ length legs.now * 2 ^ 63 }
{
    let mut sum = 0i128;
    for leg in legs {
        sum += in_cell(*leg, account, column) as i128;
    }
    sum
}
