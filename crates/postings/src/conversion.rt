//! The entry of a conversion.
ghost use Rattle.std.specs.Prelude.{◌≡◌};
ghost use Rattle.ledger.specs.Held.{legs_of};
ghost use Rattle.model.specs.Postings.{conversion_legs};
ghost use Rattle.postings.specs.Drafts.{entry_legs};

use crate::account::{DOCKET_ACCOUNT, EXCHANGE_ACCOUNT};
use crate::draft::{Accounts, Draft};
use ledger::Entry;
use model::{Exchange, Record};
use money::{Currency, Minor};

/// The amount into the exchange account, what is booked out of it, and the residues of the record from there to the
/// docket account. The empty entry where these legs make none.
pub fn conversion_entry(
    exchange: Exchange,
    from: Currency,
    to: Currency,
    booked: Minor,
    docketed: Record,
) -> Entry
    ensures { legs_of result ≡ entry_legs (conversion_legs exchange from to booked docketed) }
{
    let mut draft = Draft::new();
    draft.add_money(
        Accounts::new(exchange.from, EXCHANGE_ACCOUNT),
        from,
        exchange.amount,
    );
    draft.add_money(Accounts::new(EXCHANGE_ACCOUNT, exchange.to), to, booked);
    draft.add_residues(Accounts::new(EXCHANGE_ACCOUNT, DOCKET_ACCOUNT), docketed);
    draft.entry()
}
