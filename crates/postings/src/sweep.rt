//! What a sweep moves, and its entry.
ghost use Rattle.std.specs.Prelude.{◌≡◌, ◌*◌, ◌^◌, ◌≤◌, pos, ◌*ℤ◌, unsigned_abs};
ghost use Rattle.ledger.specs.Columns.{whole_parts};
ghost use Rattle.ledger.specs.Held.{legs_of};
ghost use Rattle.model.specs.Postings.{sweepable, sweep_legs};
ghost use Rattle.postings.specs.Drafts.{entry_legs};
ghost use Rattle.postings.specs.Sweeps.{most_parts, Swept};

use crate::account::EXCHANGE_ACCOUNT;
use crate::draft::Draft;
use ledger::{Entry, FractionColumn};
use money::Minor;

/// The most minor units that a sweep moves, either way.
pub const MOST_SWEPT: i64 = 1_000;

/// The whole minor units in a cell of parts, cut toward zero, and at most `MOST_SWEPT` either way.
pub fn sweepable(column: FractionColumn, cell: i64) -> Minor
    ensures value { result.0 ≡ sweepable column cell }
    ensures swept { Swept column cell result.0 }
{
    let whole = cell / column.parts() as i64;
    Minor(whole.clamp(-MOST_SWEPT, MOST_SWEPT))
}

/// The parts of a column in minor units.
fn parts_in(column: FractionColumn, units: Minor) -> i128
    ensures value { result ≡ units.0 *ℤ pos (whole_parts column) }
    ensures bound { unsigned_abs result ≤ 2 ^ 63 * most_parts }
{
    units.0 as i128 * column.parts() as i128
}

/// The minor units to the account in the column's currency, their parts out of it, both against the exchange account.
/// The empty entry where these legs make none.
pub fn sweep_entry(account: u64, column: FractionColumn, swept: Minor) -> Entry
    ensures { legs_of result ≡ entry_legs (sweep_legs account column swept.0) }
{
    let money = column.currency().number();
    let units = swept.0 as i128;
    let parts = parts_in(column, swept);
    let mut draft = Draft::new();
    draft.add_leg(account, money, units);
    draft.add_leg(EXCHANGE_ACCOUNT, money, -units);
    draft.add_leg(account, column.number(), -parts);
    draft.add_leg(EXCHANGE_ACCOUNT, column.number(), parts);
    draft.entry()
}
