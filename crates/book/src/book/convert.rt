//! Conversions, each of which gives a slip.
ghost use Rattle.std.specs.Prelude.{◌≡◌, [], ◌∷◌, IfOk};
ghost use Rattle.register.specs.Register.{answer};
ghost use Rattle.model.specs.Calls.{convert};
ghost use Rattle.model.specs.Step.{step, issues, converting};
ghost use Rattle.book.specs.Proposals.{entering, proposes, Issuable};
ghost use Rattle.book.specs.View.{state_of};

use super::Book;
use super::currency::currency_at;
use super::refusal::check_named;
use docket::MOST_RECORDS;
use ledger::{Entry, Ledger};
use model::{Exchange, Record};
use money::{Minor, Route};
use postings::{conversion_entry, record_of};
use register::{BookCause, BookFault, Fault};

/// The last number that a slip may bear.
const MOST_SLIPS: u32 = 999_999;

/// What a conversion books, the record of its slip, and its entry.
#[derive(Drop)]
struct Issue {
    booked: Minor,
    docketed: Record,
    entry: Entry,
}

impl<L: Ledger> Book<L> {
    /// The issue of a conversion: refused 1, 2, 3, 4, 5, 9, 10, 11.
    fn propose_conversion(&self, exchange: Exchange) -> Result<Issue, BookFault>
        ensures value { proposes (λ p. entering (p.booked, p.docketed.number) p.entry (issues (p.docketed ∷ []))) result ≡ converting (state_of L.Balances self.now) exchange }
        ensures issuable { IfOk result (λ p. Issuable (state_of L.Balances self.now) p.docketed) }
    {
        self.check_fit()?;
        let from = currency_at(exchange.source)?;
        let to = currency_at(exchange.target)?;
        let route = Route::new(from, to)?;
        check_named(exchange.from)?;
        check_named(exchange.to)?;
        let conversion = route.convert(exchange.amount)?;
        if self.docket.len() >= MOST_RECORDS {
            return Err(BookCause::DocketFull.into());
        }
        if self.given >= MOST_SLIPS {
            return Err(BookCause::SlipsExhausted.into());
        }
        let booked = conversion.booked();
        let docketed = record_of(self.given + 1, from, to, conversion);
        let entry = conversion_entry(exchange, from, to, booked, docketed);
        Ok(Issue {
            booked,
            docketed,
            entry,
        })
    }

    /// Converts an amount, and puts the record of its slip on the docket.
    pub(super) fn issue(&mut self, exchange: Exchange) -> Result<(Minor, u32), Fault>
        ensures { (answer result, state_of L.Balances self.new) ≡ step (state_of L.Balances self.old) (convert exchange) }
    {
        let Issue {
            booked,
            docketed,
            entry,
        } = self.propose_conversion(exchange)?;
        self.ledger.take(&entry)?;
        self.given = docketed.number;
        let _ = self.docket.append(docketed);
        Ok((booked, docketed.number))
    }
}
