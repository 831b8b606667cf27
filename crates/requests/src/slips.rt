//! What requests do with slips. A line holds none, so each slip ends in the request that it came from.
ghost use Rattle.std.specs.Prelude.{◌≡◌};
ghost use Rattle.register.specs.Register.{answer};
ghost use Rattle.model.specs.Calls.{convert};
ghost use Rattle.model.specs.Conservation.{ConservedThrough};
ghost use Rattle.model.specs.History.{after};
ghost use Rattle.model.specs.Step.{step};
ghost use Rattle.book.specs.View.{state_of};
ghost use Rattle.requests.specs.Requests.{conversion_calls, carry_calls, carried};

use book::Book;
use ledger::Ledger;
use model::Exchange;
use money::Minor;
use register::Fault;

/// Converts, and parks the slip at once; its number says what is left to carry.
pub fn convert_and_park<L: Ledger>(
    book: &mut Book<L>,
    exchange: Exchange,
) -> Result<(Minor, u32), Fault>
    ensures value { answer result ≡ (step (state_of L.Balances book.old) (convert exchange)).0 }
    ensures state { state_of L.Balances book.new ≡ after (state_of L.Balances book.old) (conversion_calls (state_of L.Balances book.old) exchange) }
    ensures law { ConservedThrough (state_of L.Balances book.old) (conversion_calls (state_of L.Balances book.old) exchange) (state_of L.Balances book.new) }
{
    let (booked, slip) = book.convert(exchange)?;
    let number = slip.number();
    let _ = slip.park(book);
    Ok((booked, number))
}

/// Takes a parked number up and carries it to an account; a slip that is refused is parked again.
pub fn carry_number<L: Ledger>(book: &mut Book<L>, number: u64, account: u64) -> Result<(), Fault>
    ensures value { answer result ≡ carried (state_of L.Balances book.old) number account }
    ensures state { state_of L.Balances book.new ≡ after (state_of L.Balances book.old) (carry_calls (state_of L.Balances book.old) number account) }
    ensures law { ConservedThrough (state_of L.Balances book.old) (carry_calls (state_of L.Balances book.old) number account) (state_of L.Balances book.new) }
{
    let slip = book.take_up(number)?;
    match slip.carry(book, account) {
        Ok(()) => Ok(()),
        Err((slip, fault)) => {
            let _ = slip.park(book);
            Err(fault)
        }
    }
}
