//! Requests and lines, carried out on a book. The first refusal, of the reader, the book or the ledger, goes up whole.
ghost use Rattle.std.specs.Prelude.{◌≡◌};
ghost use Rattle.std.specs.Option.{option_map};
ghost use Rattle.register.specs.Register.{answer};
ghost use Rattle.apportion.specs.Ties.{Lawful};
ghost use Rattle.model.specs.Conservation.{ConservedThrough};
ghost use Rattle.model.specs.History.{after};
ghost use Rattle.reader.specs.Requests.{split, asked, given_by};
ghost use Rattle.book.specs.View.{state_of};
ghost use Rattle.requests.specs.Requests.{ruled, numbers, request_calls, performed, line_calls, line_performed};

use crate::reply::Reply;
use crate::slips::{carry_number, convert_and_park};
use apportion::{Fraction, MOST_SHARES, Share, TieRule};
use arrayvec::ArrayVec;
use book::Book;
use ledger::Ledger;
use model::Division;
use money::Minor;
use reader::{Request, read_line};
use register::Fault;

// A book and a rule are borrowed for one call, the book to be changed: a struct of both would be made anew at each.

/// Splits, and keeps the portions. A line says nothing of the fractions.
fn split_among<L: Ledger, R: TieRule>(
    book: &mut Book<L>,
    rule: &R,
    division: Division,
    shares: &[Share],
) -> Result<Reply, Fault>
    ensures value { (law : Lawful (R.TieRule.tie rule.now)) → given_by numbers (answer result) ≡ performed (ruled law) (state_of L.Balances book.old) (split division shares.now) }
    ensures state { (law : Lawful (R.TieRule.tie rule.now)) → state_of L.Balances book.new ≡ after (state_of L.Balances book.old) (request_calls (ruled law) (state_of L.Balances book.old) (split division shares.now)) }
{
    // two lists, which a split writes to
    let mut items = [Minor(0); MOST_SHARES];
    let mut fractions = [Fraction(0); MOST_SHARES];
    book.split(rule, division, shares, &mut items, &mut fractions)?;
    let mut portions = ArrayVec::from_array_in((), items);
    portions.truncate(shares.len());
    Ok(Reply::Split(portions))
}

/// Does what a request asks for.
pub fn perform<L: Ledger, R: TieRule>(
    book: &mut Book<L>,
    rule: &R,
    request: &Request,
) -> Result<Reply, Fault>
    ensures value { (law : Lawful (R.TieRule.tie rule.now)) → given_by numbers (answer result) ≡ performed (ruled law) (state_of L.Balances book.old) (asked request.now) }
    ensures state { (law : Lawful (R.TieRule.tie rule.now)) → state_of L.Balances book.new ≡ after (state_of L.Balances book.old) (request_calls (ruled law) (state_of L.Balances book.old) (asked request.now)) }
    ensures law { (law : Lawful (R.TieRule.tie rule.now)) → ConservedThrough (state_of L.Balances book.old) (request_calls (ruled law) (state_of L.Balances book.old) (asked request.now)) (state_of L.Balances book.new) }
{
    match request {
        Request::Post(postings) => {
            book.post(postings.as_slice())?;
            Ok(Reply::Done)
        }
        Request::Convert(exchange) => {
            let (booked, number) = convert_and_park(book, *exchange)?;
            Ok(Reply::Converted { booked, number })
        }
        Request::Split { division, shares } => {
            split_among(book, rule, *division, shares.as_slice())
        }
        Request::Carry { number, account } => {
            carry_number(book, *number, *account)?;
            Ok(Reply::Done)
        }
        Request::Sweep { account, column } => {
            let moved = book.sweep(*account, *column)?;
            Ok(Reply::Swept(moved))
        }
    }
}

/// Does what a line asks for. A line without words asks for nothing.
pub fn perform_line<L: Ledger, R: TieRule>(
    book: &mut Book<L>,
    rule: &R,
    line: &[u8],
) -> Result<Option<Reply>, Fault>
    ensures value { (law : Lawful (R.TieRule.tie rule.now)) → given_by (option_map numbers) (answer result) ≡ line_performed (ruled law) (state_of L.Balances book.old) line.now }
    ensures state { (law : Lawful (R.TieRule.tie rule.now)) → state_of L.Balances book.new ≡ after (state_of L.Balances book.old) (line_calls (ruled law) (state_of L.Balances book.old) line.now) }
    ensures law { (law : Lawful (R.TieRule.tie rule.now)) → ConservedThrough (state_of L.Balances book.old) (line_calls (ruled law) (state_of L.Balances book.old) line.now) (state_of L.Balances book.new) }
{
    let Some(request) = read_line(line)? else {
        return Ok(None);
    };
    let reply = perform(book, rule, &request)?;
    Ok(Some(reply))
}
