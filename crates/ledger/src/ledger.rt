//! What every ledger answers, and what it does with an entry.
ghost use Rattle.std.specs.Prelude.{◌≡◌, ℕ, false, pos, OnErr};
ghost use Rattle.register.specs.Register.{ledger_answer};
ghost use Rattle.ledger.specs.Held.{legs_of};
ghost use Rattle.ledger.specs.Laws.{Conserved};
ghost use Rattle.ledger.specs.Limits.{listed};
ghost use Rattle.ledger.specs.Meaning.{Meaning, row_of, verdict, after};

use crate::entry::Entry;
use crate::limits::ROW_CELLS;
use register::LedgerFault;
use std::array;

/// What can be asked of a ledger. A question changes nothing.
// Account and column stay two numbers, of which any may be asked: `cell(Cell { account, column })` would be no plainer than
// `cell(account, column)`, and each body would take it apart. A 0 outside the accounts and columns is the rule of a ledger.
pub trait Balances {
    /// The letter of the ledger's type.
    const KIND: char;

    // a ghost named `KIND` gets no proof in an impl whose type has a lifetime, as a sheet's and a journal's
    ghost letter: { ℕ };

    ghost meaning: { Self → Meaning };

    /// The letter of the ledger's type, `KIND`.
    fn kind_letter(&self) -> char
        ensures { result ≡ letter };

    /// How many more legs the ledger takes.
    fn room(&self) -> u64
        ensures { result ≡ (meaning self.now).room };

    /// What the cell holds; 0 outside the accounts and columns.
    fn cell(&self, account: u64, column: u64) -> i64
        ensures value { result ≡ (meaning self.now).cell account column }
        ensures outside { listed account column ≡ false → result ≡ pos 0 };

    /// What the cells of an account hold, by column. A ledger that can read a whole account at once says how.
    fn row(&self, account: u64) -> [i64; ROW_CELLS]
        ensures { result ≡ row_of (meaning self.now) account }
    {
        array::from_fn(|column| self.cell(account, column as u64))
    }

    // no body in the trait for the limits: it would have to give what the meaning of any ledger says
    /// The least that the cell may hold; 0 outside the accounts and columns.
    fn floor(&self, account: u64, column: u64) -> i64
        ensures value { result ≡ (meaning self.now).floor account column }
        ensures outside { listed account column ≡ false → result ≡ pos 0 };

    /// The most that the cell may hold; 0 outside the accounts and columns.
    fn ceiling(&self, account: u64, column: u64) -> i64
        ensures value { result ≡ (meaning self.now).ceiling account column }
        ensures outside { listed account column ≡ false → result ≡ pos 0 };
}

/// A ledger, which takes entries.
pub trait Ledger: Balances {
    /// Takes every leg of the entry, or none: refused 17 if they are more than the room, 18 at the first leg after
    /// which its cell is outside its floor and ceiling.
    fn take(&mut self, entry: &Entry) -> Result<(), LedgerFault>
        ensures refused { ledger_answer result ≡ verdict (Self.Balances.meaning self.old) (legs_of entry.now) }
        ensures meaning { Self.Balances.meaning self.new ≡ after (Self.Balances.meaning self.old) (legs_of entry.now) }
        ensures kept { OnErr result (Self.Balances.meaning self.new ≡ Self.Balances.meaning self.old) };
}

/// Has any ledger take an entry. What it moves and what it keeps is proved here once, for every ledger.
pub fn enter<L: Ledger>(ledger: &mut L, entry: &Entry) -> Result<(), LedgerFault>
    ensures refused { ledger_answer result ≡ verdict (L.Balances.meaning ledger.old) (legs_of entry.now) }
    ensures meaning { L.Balances.meaning ledger.new ≡ after (L.Balances.meaning ledger.old) (legs_of entry.now) }
    ensures conserved { Conserved (L.Balances.meaning ledger.old) (L.Balances.meaning ledger.new) (legs_of entry.now) result }
{
    ledger.take(entry)
}
