//! Whose a slip is.
ghost use Rattle.std.specs.Prelude.{◌≡◌, IfSome};
ghost use Rattle.register.specs.Register.{book_answer};
ghost use Rattle.docket.specs.Records.{Bounded};
ghost use Rattle.model.specs.Step.{slip_record, if_out};
ghost use Rattle.book.specs.Slips.{admitted};
ghost use Rattle.book.specs.View.{state_of};

use super::Book;
use crate::slip::Slip;
use ledger::Ledger;
use model::{Record, Standing};
use register::{BookCause, BookFault};

/// What a call does with a slip: a carry and a parking end it, and a take-up gives it again. A rule of the project: a
/// record's standing and the call are matched together, in one place, so that a further standing is one more row there.
#[derive(Clone, Copy)]
pub(super) enum SlipCall {
    End,
    TakeUp,
}

/// Whether the record of a slip is in the standing that a call asks for, or why not.
pub(super) fn admit(standing: Standing, call: SlipCall) -> Result<(), BookFault>
    ensures { book_answer result ≡ admitted standing call }
{
    match (standing, call) {
        (Standing::Out, SlipCall::End) | (Standing::Parked, SlipCall::TakeUp) => Ok(()),
        (Standing::Out, SlipCall::TakeUp) => Err(BookCause::SlipIsOut.into()),
        (Standing::Parked, SlipCall::End) => Err(BookCause::ForeignSlip.into()),
    }
}

/// The record, if its slip is out.
fn if_out(found: Option<Record>) -> Option<Record>
    ensures { result ≡ if_out found }
{
    let docketed = found?;
    admit(docketed.standing, SlipCall::End).ok()?;
    Some(docketed)
}

impl<L: Ledger> Book<L> {
    /// The record of a slip, if it is this book's: the mark agrees, and the number is on the docket as out.
    pub(super) fn slip_record(&self, slip: &Slip) -> Option<Record>
        ensures value { result ≡ slip_record (state_of L.Balances self.now) slip.now.mark slip.now.number }
        ensures bounded { IfSome result Bounded }
    {
        if slip.mark() != self.mark {
            return None;
        }
        if_out(self.docket.find(u64::from(slip.number())))
    }
}
