//! The entry of a split.
ghost use Rattle.std.specs.Prelude.{◌≡◌};
ghost use Rattle.ledger.specs.Held.{legs_of};
ghost use Rattle.model.specs.Postings.{split_legs};
ghost use Rattle.postings.specs.Drafts.{entry_legs};

use crate::draft::Draft;
use apportion::Share;
use ledger::Entry;
use model::Division;
use money::{Currency, Minor};

/// The amount out of the account, then each portion to its share, in list order. The empty entry where these legs
/// make none.
pub fn split_entry(
    division: Division,
    currency: Currency,
    shares: &[Share],
    portions: &[Minor],
) -> Entry
    ensures { legs_of result ≡ entry_legs (split_legs division currency shares.now portions.now) }
{
    let column = currency.number();
    let mut draft = Draft::new();
    draft.add_leg(division.account, column, -(division.amount.0 as i128));
    for (share, portion) in shares.iter().zip(portions) {
        draft.add_leg(share.account, column, portion.0 as i128);
    }
    draft.entry()
}
