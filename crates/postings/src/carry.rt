//! The entry of a carry.
ghost use Rattle.std.specs.Prelude.{◌≡◌};
ghost use Rattle.ledger.specs.Held.{legs_of};
ghost use Rattle.model.specs.Postings.{carry_legs};
ghost use Rattle.postings.specs.Drafts.{entry_legs};

use crate::account::DOCKET_ACCOUNT;
use crate::draft::{Accounts, Draft};
use ledger::Entry;
use model::Record;

/// The residues of the record from the docket account to the account, euro first. The empty entry where these legs
/// make none.
#[tactic(auto, using(crate::proofs::Drawing::drawn_up))]
pub fn carry_entry(docketed: Record, account: u64) -> Entry
    ensures { legs_of result ≡ entry_legs (carry_legs docketed account) }
{
    let mut draft = Draft::new();
    draft.add_residues(Accounts::new(DOCKET_ACCOUNT, account), docketed);
    draft.entry()
}
