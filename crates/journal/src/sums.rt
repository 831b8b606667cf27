//! What records add to a cell.
ghost use Rattle.std.specs.Prelude.{◌≡◌, ◌==◌, ◌&&◌, ℕ, ◌<◌, ◌≤◌, length, pos, slice_index_or, unsigned_abs};
ghost use Rattle.money.specs.Conversions.{most_amount};
ghost use Rattle.ledger.specs.Entries.{in_range};
ghost use Rattle.ledger.specs.Limits.{columns};
ghost use Rattle.journal.specs.Journal.{in_record, recorded, most_records};

use ledger::{Leg, ROW_CELLS};

/// Whether the record is a leg of the account.
fn is_leg_of(leg: Leg, account: u64) -> bool
    ensures { result ≡ (leg.account == account && in_range leg) }
{
    leg.account as u64 == account && leg.is_in_range()
}

/// What one record adds to a cell: nothing if it is no leg.
#[tactic(auto, unfolding(crate::specs::Journal::in_record, ledger::specs::Legs::in_cell, ledger::specs::Legs::in_column))]
fn in_record(leg: Leg, account: u64, column: u64) -> i64
    ensures value { result ≡ in_record leg account column }
    ensures bound { unsigned_abs result ≤ most_amount }
{
    if is_leg_of(leg, account) && leg.column as u64 == column {
        leg.amount
    } else {
        0
    }
}

/// What the records add to a cell. They are too few for the sum to leave 64 bits.
pub(crate) fn recorded(records: &[Leg], account: u64, column: u64) -> i64
    requires { length records.now ≤ most_records }
    ensures { result ≡ recorded records.now account column }
{
    let mut sum = 0i64;
    for leg in records {
        sum += in_record(*leg, account, column);
    }
    sum
}

/// What the records add to the cells of an account, by column.
pub(crate) fn recorded_row(records: &[Leg], account: u64) -> [i64; ROW_CELLS]
    requires { length records.now ≤ most_records }
    ensures count { length result ≡ columns }
    ensures cells { (k : ℕ) → k < columns → slice_index_or result k (pos 0) ≡ recorded records.now account k }
{
    let mut row = [0i64; ROW_CELLS];
    for leg in records {
        if is_leg_of(*leg, account) {
            row[leg.column as usize] += leg.amount;
        }
    }
    row
}
