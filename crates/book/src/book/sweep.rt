//! Sweeping whole minor units out of a fraction column.
ghost use Rattle.std.specs.Prelude.{◌≡◌};
ghost use Rattle.register.specs.Register.{answer};
ghost use Rattle.model.specs.Calls.{sweep};
ghost use Rattle.model.specs.Step.{step, unchanged, sweeping};
ghost use Rattle.book.specs.Proposals.{entering, proposes};
ghost use Rattle.book.specs.View.{state_of};

use super::Book;
use super::refusal::check_named;
use ledger::{Entry, FractionColumn, Ledger};
use money::Minor;
use postings::{sweep_entry, sweepable};
use register::{BookCause, BookFault, Fault};

impl<L: Ledger> Book<L> {
    /// The minor units that a sweep moves, and its entry: refused 1, 4, 16, 15.
    fn propose_sweep(&self, account: u64, column: u64) -> Result<(Minor, Entry), BookFault>
        ensures { proposes (λ p. entering p.0 p.1 unchanged) result ≡ sweeping (state_of L.Balances self.now) account column }
    {
        self.check_fit()?;
        check_named(account)?;
        let fraction = FractionColumn::from_number(column).ok_or(BookCause::NotAFractionColumn)?;
        let swept = sweepable(fraction, self.ledger.cell(account, column));
        if swept.0 == 0 {
            return Err(BookCause::NothingToSweep.into());
        }
        Ok((swept, sweep_entry(account, fraction, swept)))
    }

    /// Has the ledger take the entry of a sweep.
    pub(super) fn enter_sweep(&mut self, account: u64, column: u64) -> Result<Minor, Fault>
        ensures { (answer result, state_of L.Balances self.new) ≡ step (state_of L.Balances self.old) (sweep account column) }
    {
        let (swept, entry) = self.propose_sweep(account, column)?;
        self.ledger.take(&entry)?;
        Ok(swept)
    }
}
