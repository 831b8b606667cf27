//! The same call many times over.
ghost use Rattle.std.specs.Prelude.{◌≡◌};
ghost use Rattle.apportion.specs.Ties.{Lawful, by_place};
ghost use Rattle.book.specs.View.{state_of};
ghost use Rattle.requests.specs.Requests.{ruled};
ghost use Rattle.exports.specs.Exports.{exchange_round, exchange_rounds, line_rounds};

use apportion::SmallerPlace;
use book::Book;
use ledger::Ledger;
use model::Exchange;
use reader::read_line;
use requests::{carry_number, convert_and_park, perform};

/// Converts, and carries the residues to the account that gets what is booked.
fn convert_and_carry<L: Ledger>(book: &mut Book<L>, exchange: Exchange)
    ensures { state_of L.Balances book.new ≡ exchange_round (state_of L.Balances book.old) exchange }
{
    if let Ok((_, number)) = convert_and_park(book, exchange) {
        let _ = carry_number(book, number as u64, exchange.to);
    }
}

/// So many conversions, each with its residues carried on.
pub(crate) fn convert_rounds<L: Ledger>(book: &mut Book<L>, exchange: Exchange, rounds: u64)
    ensures { state_of L.Balances book.new ≡ exchange_rounds (state_of L.Balances book.old) exchange rounds }
{
    for _round in 0..rounds {
        convert_and_carry(book, exchange);
    }
}

/// Carries a line out so many times, and reads it once.
pub(crate) fn line_rounds<L: Ledger>(book: &mut Book<L>, line: &[u8], rounds: u64)
    ensures { (law : Lawful by_place) → state_of L.Balances book.new ≡ line_rounds (ruled law) (state_of L.Balances book.old) line.now rounds }
{
    // a match, whose branches the proof names; those of an `if let` that are not taken have no name
    match read_line(line) {
        Ok(Some(request)) => {
            for _round in 0..rounds {
                let _ = perform(book, &SmallerPlace, &request);
            }
        }
        Ok(None) => {}
        Err(_) => {}
    }
}
