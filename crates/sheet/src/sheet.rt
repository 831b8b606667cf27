//! The sheet: one number for each account and column.
ghost use Rattle.std.specs.Prelude.{◌≡◌, ◌-◌, true, length, Ok, OnErr};
ghost use Rattle.register.specs.Register.{ledger_answer};
ghost use Rattle.ledger.specs.Entries.{EntryLegs};
ghost use Rattle.ledger.specs.Held.{legs_of};
ghost use Rattle.ledger.specs.Limits.{listed};
ghost use Rattle.ledger.specs.Meaning.{verdict, after};
ghost use Rattle.sheet.specs.Cells.{long, place_of, sheet_opened, cleared, posted, cells_after};
ghost use Rattle.sheet.specs.Sheet.{sheet_meaning};

use ledger::{
    ACCOUNTS, Balances, COLUMNS, Entry, Ledger, Leg, ceiling_of, check, floor_of, is_cell,
};
use register::LedgerFault;

/// The cells of a sheet: one for each account and column, 4,352.
pub const SHEET_CELLS: usize = (ACCOUNTS * COLUMNS) as usize;

/// The most legs that a sheet takes.
pub const MOST_ROOM: u64 = 9_000_000;

/// A list of numbers, a row of columns for each account, and how many more legs it takes.
// the list is lent by the caller, of any length, so no fact ties the room to it
#[derive(Drop)]
pub struct Sheet<'a> {
    cells: &'a mut [i64],
    room: u64,
}

/// Where the cell stands in the list.
fn place_of(account: u64, column: u64) -> usize
    requires { listed account column ≡ true }
    ensures { result ≡ place_of account column }
{
    (account * COLUMNS + column) as usize
}

/// Whether the list has every cell. One that is too short is read as zeros, and takes no leg.
fn is_long(cells: &[i64]) -> bool
    ensures { result ≡ long cells.now }
{
    cells.len() >= SHEET_CELLS
}

impl<'a> Sheet<'a> {
    /// Clears the first cells of the list and leaves what follows. A list that is too short is left as it is, and
    /// the sheet then has no room.
    pub fn open(cells: &'a mut [i64], room: u64) -> Sheet<'a>
        ensures meaning { sheet_meaning result ≡ sheet_opened cells.old room }
        ensures cells { result.cells.now ≡ cleared cells.old }
        ensures named { result.cells.ghost_name ≡ cells.entry.ghost_name }
    {
        if !is_long(cells) {
            return Sheet { cells, room: 0 };
        }
        cells[..SHEET_CELLS].fill(0);
        Sheet {
            cells,
            room: room.min(MOST_ROOM),
        }
    }
}

impl Sheet<'_> {
    /// Adds each leg to its cell, once it is known that the sheet takes them.
    fn post(&mut self, legs: &[Leg])
        requires taken { verdict (sheet_meaning self.old) legs.now ≡ Ok tt }
        requires lawful { EntryLegs legs.now }
        ensures cells { self.new.cells.now ≡ posted self.old.cells.now legs.now }
        ensures room { self.new.room ≡ self.old.room - length legs.now }
        ensures named { self.new.cells.ghost_name ≡ self.old.cells.ghost_name }
    {
        for leg in legs {
            let place = place_of(leg.account as u64, leg.column as u64);
            self.cells[place] += leg.amount;
        }
        self.room -= legs.len() as u64;
    }
}

impl Balances for Sheet<'_> {
    const KIND: char = 'S';

    ghost letter = { 83 };

    ghost meaning = { sheet_meaning };

    fn kind_letter(&self) -> char {
        Self::KIND
    }

    fn room(&self) -> u64 {
        if is_long(self.cells) { self.room } else { 0 }
    }

    fn cell(&self, account: u64, column: u64) -> i64 {
        if is_cell(account, column) && is_long(self.cells) {
            self.cells[place_of(account, column)]
        } else {
            0
        }
    }

    fn floor(&self, account: u64, column: u64) -> i64 {
        floor_of(account, column)
    }

    fn ceiling(&self, account: u64, column: u64) -> i64 {
        ceiling_of(account, column)
    }
}

impl Ledger for Sheet<'_> {
    fn take(&mut self, entry: &Entry) -> Result<(), LedgerFault>
        ensures refused { ledger_answer result ≡ verdict (sheet_meaning self.old) (legs_of entry.now) }
        ensures meaning { sheet_meaning self.new ≡ after (sheet_meaning self.old) (legs_of entry.now) }
        ensures kept { OnErr result (sheet_meaning self.new ≡ sheet_meaning self.old) }
        ensures cells { self.new.cells.now ≡ cells_after self.old.cells.now self.old.room (legs_of entry.now) }
        ensures named { self.new.cells.ghost_name ≡ self.old.cells.ghost_name }
    {
        check(self, entry)?;
        self.post(entry.legs());
        Ok(())
    }
}
