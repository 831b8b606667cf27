//! Posting entries in money.
ghost use Rattle.std.specs.Prelude.{◌≡◌};
ghost use Rattle.register.specs.Register.{answer};
ghost use Rattle.model.specs.Calls.{post};
ghost use Rattle.model.specs.Step.{step, unchanged, posting};
ghost use Rattle.book.specs.Proposals.{entering, proposes};
ghost use Rattle.book.specs.View.{state_of};

use super::Book;
use ledger::{Entry, Ledger};
use model::Posting;
use postings::post_entry;
use register::{BookFault, Fault};

impl<L: Ledger> Book<L> {
    /// The entry of a post: refused 1, 6, each leg 4, 2, 5, then 7.
    fn propose_post(&self, postings: &[Posting]) -> Result<Entry, BookFault>
        ensures { proposes (λ e. entering tt e unchanged) result ≡ posting (state_of L.Balances self.now) postings.now }
    {
        self.check_fit()?;
        post_entry(postings)
    }

    /// Has the ledger take the entry of a post.
    pub(super) fn enter_post(&mut self, postings: &[Posting]) -> Result<(), Fault>
        ensures { (answer result, state_of L.Balances self.new) ≡ step (state_of L.Balances self.old) (post postings.now) }
    {
        let entry = self.propose_post(postings)?;
        self.ledger.take(&entry)?;
        Ok(())
    }
}
