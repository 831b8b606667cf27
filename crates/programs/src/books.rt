//! A book on an empty sheet, and one on an empty journal.
ghost use Rattle.std.specs.Prelude.{◌≡◌};
ghost use Rattle.programs.specs.Books.{sheet_state, journal_state, sheet_book, journal_book};

use book::Book;
use journal::Journal;
use ledger::Leg;
use sheet::{SHEET_CELLS, Sheet};

/// How many legs the sheet takes.
const ROOM: u64 = 4_000_000;

/// How many records the journal has.
pub const RECORDS: usize = 4_096;

/// What the book's slips bear. None leaves the engine, so any mark does.
const MARK: u32 = 1;

// Two functions, since a sheet has a room beside its list and a journal has none.

/// A book on a sheet.
pub fn open_sheet<'a>(cells: &'a mut [i64; SHEET_CELLS]) -> Book<Sheet<'a>>
    ensures { sheet_state result ≡ sheet_book }
{
    Book::open(Sheet::open(cells, ROOM), MARK)
}

/// A book on a journal.
pub fn open_journal<'a>(records: &'a mut [Leg; RECORDS]) -> Book<Journal<'a>>
    ensures { journal_state result ≡ journal_book }
{
    Book::open(Journal::open(records), MARK)
}
