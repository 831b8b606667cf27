//! A ledger that writes each leg as one record into a list lent to it.
ghost use Rattle.std.specs.Prelude.{◌≡◌, ◌+◌, ◌≤◌, ◌++◌, min, length, OnErr};
ghost use Rattle.register.specs.Register.{ledger_answer};
ghost use Rattle.ledger.specs.Entries.{EntryLegs};
ghost use Rattle.ledger.specs.Held.{legs_of};
ghost use Rattle.ledger.specs.Meaning.{verdict, entered, after};
ghost use Rattle.journal.specs.Journal.{most_records, journal_records, journal_meaning, journal_opened, Appended, written, records_after, taken_after};

use crate::sums::{recorded, recorded_row};
use ledger::{
    Balances, Entry, Ledger, Leg, ROW_CELLS, ceiling_of, check, check_room, floor_of, is_cell,
};
use register::LedgerFault;

/// The most records that a journal uses of its list.
pub const MOST_RECORDS: usize = 65_536;

/// So few records cannot bring a cell past a limit: as many times the most amount is within it.
const SAFE_RECORDS: usize = 10_000;

/// A list lent for records, and how many of them are taken, from the first on.
// the list is lent by the caller, of any length, so no fact ties the number to it
#[derive(Drop)]
pub struct Journal<'a> {
    records: &'a mut [Leg],
    taken: usize,
}

impl<'a> Journal<'a> {
    /// A journal that has taken nothing. Nothing is written.
    pub fn open(records: &'a mut [Leg]) -> Journal<'a>
        ensures meaning { journal_meaning result ≡ journal_opened records.old }
        ensures records { result.records.now ≡ records.old }
        ensures named { result.records.ghost_name ≡ records.entry.ghost_name }
        ensures taken { result.taken ≡ 0 }
    {
        Journal { records, taken: 0 }
    }
}

impl Journal<'_> {
    /// How many records of the list the journal uses.
    fn capacity(&self) -> usize
        ensures { result ≡ min (length self.now.records.now) most_records }
    {
        self.records.len().min(MOST_RECORDS)
    }

    /// The records taken, in order.
    pub fn records(&self) -> &[Leg]
        ensures { result.now ≡ journal_records self.now }
    {
        let count = self.taken.min(self.capacity());
        &self.records[..count]
    }

    /// The refusal that the journal has for the entry, if it has one. While the records are few, the room decides and
    /// no record is read.
    fn decide(&self, entry: &Entry) -> Result<(), LedgerFault>
        ensures { ledger_answer result ≡ verdict (journal_meaning self.now) (legs_of entry.now) }
    {
        if self.taken.saturating_add(entry.legs().len()) > SAFE_RECORDS {
            check(self, entry)
        } else {
            check_room(self, entry)
        }
    }

    /// Writes each leg at the next free record.
    fn write(&mut self, legs: &[Leg])
        requires room { length legs.now ≤ (journal_meaning self.old).room }
        requires lawful { EntryLegs legs.now }
        ensures meaning { journal_meaning self.new ≡ entered (journal_meaning self.old) legs.now }
        ensures appended { journal_records self.new ≡ journal_records self.old ++ legs.now }
        ensures records { self.new.records.now ≡ written self.old.records.now self.old.taken legs.now }
        ensures taken { self.new.taken ≡ self.old.taken + length legs.now }
        ensures named { self.new.records.ghost_name ≡ self.old.records.ghost_name }
    {
        let end = self.taken + legs.len();
        // without legs nothing says that the records taken are within the list
        if !legs.is_empty() {
            self.records[self.taken..end].copy_from_slice(legs);
        }
        self.taken = end;
    }
}

impl Balances for Journal<'_> {
    const KIND: char = 'J';

    ghost letter = { 74 };

    ghost meaning = { journal_meaning };

    fn kind_letter(&self) -> char {
        Self::KIND
    }

    fn room(&self) -> u64 {
        self.capacity().saturating_sub(self.taken) as u64
    }

    fn cell(&self, account: u64, column: u64) -> i64 {
        if is_cell(account, column) {
            recorded(self.records(), account, column)
        } else {
            0
        }
    }

    // one pass over the records, and not one for each column
    fn row(&self, account: u64) -> [i64; ROW_CELLS] {
        recorded_row(self.records(), account)
    }

    fn floor(&self, account: u64, column: u64) -> i64 {
        floor_of(account, column)
    }

    fn ceiling(&self, account: u64, column: u64) -> i64 {
        ceiling_of(account, column)
    }
}

impl Ledger for Journal<'_> {
    fn take(&mut self, entry: &Entry) -> Result<(), LedgerFault>
        ensures refused { ledger_answer result ≡ verdict (journal_meaning self.old) (legs_of entry.now) }
        ensures meaning { journal_meaning self.new ≡ after (journal_meaning self.old) (legs_of entry.now) }
        ensures kept { OnErr result (journal_meaning self.new ≡ journal_meaning self.old) }
        ensures appended { Appended self.old self.new (legs_of entry.now) result }
        ensures records { self.new.records.now ≡ records_after self.old.records.now self.old.taken (legs_of entry.now) }
        ensures taken { self.new.taken ≡ taken_after self.old.records.now self.old.taken (legs_of entry.now) }
        ensures named { self.new.records.ghost_name ≡ self.old.records.ghost_name }
    {
        self.decide(entry)?;
        self.write(entry.legs());
        Ok(())
    }
}
