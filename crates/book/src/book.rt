//! A book, how it opens and closes, and what can be asked of it.
ghost use Rattle.std.specs.Prelude.{◌≡◌, ℕ, ◌<◌, pos, Ok, slice_index_or};
ghost use Rattle.ledger.specs.Limits.{columns};
ghost use Rattle.ledger.specs.Meaning.{row_of};
ghost use Rattle.model.specs.Calls.{cell, room, kind, fit, mark, given, records, audit, ask};
ghost use Rattle.model.specs.Conservation.{ConservedFrom, StillConserved};
ghost use Rattle.model.specs.State.{all_below, clear_at, opened};
ghost use Rattle.model.specs.Step.{asked};
ghost use Rattle.book.specs.View.{state_of};

use docket::Docket;
use ledger::{COLUMNS, Ledger, ROW_CELLS};
use model::{Audit, Record};
use postings::{DOCKET_ACCOUNT, EXCHANGE_ACCOUNT};

mod calls;
mod carry;
mod convert;
mod currency;
mod park;
mod post;
mod refusal;
mod slips;
mod split;
mod sweep;

pub use currency::currency_at;

// `fit` stays a flag: by a rule of the project opening is never refused, and an unfit book still answers and parks.
/// A ledger that only this book changes, with the book's mark, whether it is fit, how many slips it has given, and
/// the docket of those whose residues no account has taken yet.
#[derive(Drop)]
pub struct Book<L: Ledger> {
    ledger: L,
    mark: u32,
    fit: bool,
    given: u32,
    docket: Docket,
}

/// Whether the exchange account and the docket account are zero in a column.
fn is_clear_at<L: Ledger>(ledger: &L, column: u64) -> bool
    ensures { result ≡ clear_at (L.Balances.meaning ledger.now) column }
{
    ledger.cell(EXCHANGE_ACCOUNT, column) == 0 && ledger.cell(DOCKET_ACCOUNT, column) == 0
}

/// Whether both are zero in every column.
fn is_clear<L: Ledger>(ledger: &L) -> bool
    ensures { result ≡ all_below (clear_at (L.Balances.meaning ledger.now)) columns }
{
    for column in 0..COLUMNS {
        if !is_clear_at(ledger, column) {
            return false;
        }
    }
    true
}

impl<L: Ledger> Book<L> {
    /// Opens a book on a ledger. It is fit if the cells of the exchange account and the docket account are all
    /// zero; an unfit book answers questions, parks, and refuses every other call.
    pub fn open(ledger: L, mark: u32) -> Book<L>
        ensures state { state_of L.Balances result ≡ opened (L.Balances.meaning ledger) L.Balances.letter mark }
        ensures law { ConservedFrom (state_of L.Balances result) }
    {
        let fit = is_clear(&ledger);
        Book {
            ledger,
            mark,
            fit,
            given: 0,
            docket: Docket::new(),
        }
    }

    /// Closes the book and gives the ledger back.
    pub fn close(self) -> L
        ensures { result ≡ self.ledger }
    {
        let Book {
            ledger,
            mark: _,
            fit: _,
            given: _,
            docket: _,
        } = self;
        ledger
    }

    /// What a cell of the ledger holds.
    pub fn cell(&self, account: u64, column: u64) -> i64
        ensures value { result ≡ asked (state_of L.Balances self.now) (cell account column) }
        ensures law { StillConserved (state_of L.Balances self.now) (ask (cell account column)) (Ok result) (state_of L.Balances self.now) }
    {
        self.ledger.cell(account, column)
    }

    /// What the cells of an account hold, by column: the questions after each of them at once.
    pub fn row(&self, account: u64) -> [i64; ROW_CELLS]
        ensures value { result ≡ row_of (L.Balances.meaning self.now.ledger) account }
        ensures law { (k : ℕ) → k < columns → StillConserved (state_of L.Balances self.now) (ask (cell account k)) (Ok (slice_index_or result k (pos 0))) (state_of L.Balances self.now) }
    {
        self.ledger.row(account)
    }

    /// How many more legs the ledger takes.
    pub fn room(&self) -> u64
        ensures value { result ≡ asked (state_of L.Balances self.now) room }
        ensures law { StillConserved (state_of L.Balances self.now) (ask room) (Ok result) (state_of L.Balances self.now) }
    {
        self.ledger.room()
    }

    /// The letter of the ledger's type.
    pub fn kind(&self) -> char
        ensures value { result ≡ asked (state_of L.Balances self.now) kind }
        ensures law { StillConserved (state_of L.Balances self.now) (ask kind) (Ok result) (state_of L.Balances self.now) }
    {
        self.ledger.kind_letter()
    }

    /// Whether the book was fit when it was opened.
    pub fn fit(&self) -> bool
        ensures value { result ≡ asked (state_of L.Balances self.now) fit }
        ensures law { StillConserved (state_of L.Balances self.now) (ask fit) (Ok result) (state_of L.Balances self.now) }
    {
        self.fit
    }

    /// The mark that the book's slips bear.
    pub fn mark(&self) -> u32
        ensures value { result ≡ asked (state_of L.Balances self.now) mark }
        ensures law { StillConserved (state_of L.Balances self.now) (ask mark) (Ok result) (state_of L.Balances self.now) }
    {
        self.mark
    }

    /// How many slips the book has given.
    pub fn given(&self) -> u32
        ensures value { result ≡ asked (state_of L.Balances self.now) given }
        ensures law { StillConserved (state_of L.Balances self.now) (ask given) (Ok result) (state_of L.Balances self.now) }
    {
        self.given
    }

    /// The docket's records, by rising number.
    pub fn records(&self) -> &[Record]
        ensures value { result.now ≡ asked (state_of L.Balances self.now) records }
        ensures law { StillConserved (state_of L.Balances self.now) (ask records) (Ok result.now) (state_of L.Balances self.now) }
    {
        self.docket.records()
    }

    /// The head of an audit: the law holds up to now, from every point before.
    pub fn audit(&self) -> Audit
        ensures value { result ≡ asked (state_of L.Balances self.now) audit }
        ensures law { StillConserved (state_of L.Balances self.now) (ask audit) (Ok result) (state_of L.Balances self.now) }
    {
        Audit {
            kind: self.kind(),
            room: self.room(),
            records: self.docket.len(),
        }
    }
}
