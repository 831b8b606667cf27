//! Parking a slip's number, and taking it up again.
ghost use Rattle.std.specs.Prelude.{◌≡◌, None, Ok};
ghost use Rattle.register.specs.Register.{answer};
ghost use Rattle.model.specs.Calls.{park, take_up};
ghost use Rattle.model.specs.declared.record.Standing.TheVariants.{Out};
ghost use Rattle.model.specs.Step.{step, restates, taking_up};
ghost use Rattle.book.specs.Proposals.{proposes};
ghost use Rattle.book.specs.View.{state_of};

use super::Book;
use super::slips::{SlipCall, admit};
use crate::slip::Slip;
use ledger::Ledger;
use model::{Record, Standing};
use register::{BookCause, BookFault, Fault};

impl<L: Ledger> Book<L> {
    /// Parks the number of a slip that ends. By a rule of the project a parking is never refused, and a slip of another
    /// book answers 0.
    pub(crate) fn park_slip(&mut self, slip: &Slip) -> u32
        ensures { (Ok result, state_of L.Balances self.new) ≡ step (state_of L.Balances self.old) (park slip.now.mark slip.now.number) }
    {
        if self.slip_record(slip).is_none() {
            return 0;
        }
        self.docket
            .restate(u64::from(slip.number()), Standing::Parked);
        slip.number()
    }

    /// The record of a parked number: refused 1, 13, 14.
    fn propose_take_up(&self, number: u64) -> Result<Record, BookFault>
        ensures { proposes (λ r. record { answer = r.number; legs = None; change = restates number Out }) result ≡ taking_up (state_of L.Balances self.now) number }
    {
        self.check_fit()?;
        let docketed = self.docket.find(number).ok_or(BookCause::NotOnDocket)?;
        admit(docketed.standing, SlipCall::TakeUp)?;
        Ok(docketed)
    }

    /// Has a parked number out again.
    pub(super) fn reissue(&mut self, number: u64) -> Result<u32, Fault>
        ensures { (answer result, state_of L.Balances self.new) ≡ step (state_of L.Balances self.old) (take_up number) }
    {
        let docketed = self.propose_take_up(number)?;
        self.docket.restate(number, Standing::Out);
        Ok(docketed.number)
    }
}
