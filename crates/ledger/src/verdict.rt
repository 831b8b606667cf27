//! Whether a ledger would take an entry, from what it answers.
ghost use Rattle.std.specs.Prelude.{◌≡◌, ◌&&◌, int_le};
ghost use Rattle.register.specs.Register.{ledger_answer};
ghost use Rattle.ledger.specs.Held.{legs_of};
ghost use Rattle.ledger.specs.Meaning.{roomy, verdict};

use crate::entry::Entry;
use crate::ledger::Balances;
use crate::sums::rise;
use register::{LedgerCause, LedgerFault};

/// Whether a number stands within two limits.
fn within(number: i128, floor: i64, ceiling: i64) -> bool
    ensures { result ≡ (int_le floor number && int_le number ceiling) }
{
    floor as i128 <= number && number <= ceiling as i128
}

/// Whether the ledger has room for every leg of the entry, or its refusal.
pub fn check_room<B: Balances>(ledger: &B, entry: &Entry) -> Result<(), LedgerFault>
    ensures { ledger_answer result ≡ roomy (B.Balances.meaning ledger.now) (legs_of entry.now) }
{
    if ledger.room() < entry.legs().len() as u64 {
        return Err(LedgerCause::NoRoom.into());
    }
    Ok(())
}

/// The refusal that the ledger has for the entry, if it has one. Nothing is written.
pub fn check<B: Balances>(ledger: &B, entry: &Entry) -> Result<(), LedgerFault>
    ensures { ledger_answer result ≡ verdict (B.Balances.meaning ledger.now) (legs_of entry.now) }
{
    check_room(ledger, entry)?;
    let legs = entry.legs();
    for (i, leg) in legs.iter().enumerate() {
        let account = leg.account as u64;
        let column = leg.column as u64;
        let next = ledger.cell(account, column) as i128 + rise(&legs[0..i + 1], account, column);
        if !within(
            next,
            ledger.floor(account, column),
            ledger.ceiling(account, column),
        ) {
            return Err(LedgerFault {
                cause: LedgerCause::OutsideLimits,
                place: i + 1,
                height: 0,
            });
        }
    }
    Ok(())
}
