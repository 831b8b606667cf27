//! Carrying the residues of a slip to an account.
ghost use Rattle.std.specs.Prelude.{◌≡◌};
ghost use Rattle.register.specs.Register.{answer};
ghost use Rattle.model.specs.Calls.{carry};
ghost use Rattle.model.specs.Step.{step, strikes, carrying};
ghost use Rattle.book.specs.Proposals.{entering, proposes};
ghost use Rattle.book.specs.View.{state_of};

use super::Book;
use super::refusal::check_named;
use crate::slip::Slip;
use ledger::{Entry, Ledger};
use postings::carry_entry;
use register::{BookCause, BookFault, Fault};

impl<L: Ledger> Book<L> {
    /// The entry that moves the residues of a slip's record to an account: refused 1, 12, 4.
    fn propose_carry(&self, slip: &Slip, account: u64) -> Result<Entry, BookFault>
        ensures { proposes (λ e. entering tt e (strikes slip.now.number account)) result ≡ carrying (state_of L.Balances self.now) slip.now.mark slip.now.number account }
    {
        self.check_fit()?;
        let docketed = self.slip_record(slip).ok_or(BookCause::ForeignSlip)?;
        check_named(account)?;
        Ok(carry_entry(docketed, account))
    }

    /// Carries the residues of a slip's record to a named account, and strikes the record.
    pub(crate) fn carry_slip(&mut self, slip: &Slip, account: u64) -> Result<(), Fault>
        ensures { (answer result, state_of L.Balances self.new) ≡ step (state_of L.Balances self.old) (carry slip.now.mark slip.now.number account) }
    {
        let entry = self.propose_carry(slip, account)?;
        self.ledger.take(&entry)?;
        self.docket.strike(u64::from(slip.number()));
        Ok(())
    }
}
