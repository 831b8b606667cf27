//! Adding legs to a draft, and the entry that it makes.
ghost use Rattle.std.specs.Prelude.{◌≡◌, [], Some, None, if◌then◌else◌};
ghost use Rattle.std.specs.Option.{option_and_then};
ghost use Rattle.ledger.specs.Entries.{in_range};
ghost use Rattle.ledger.specs.Held.{legs_of};
ghost use Rattle.ledger.specs.Legs.{leg};
ghost use Rattle.postings.specs.Drafts.{drawn, with_leg, entry_in};

use super::Draft;
use arrayvec::ArrayVec;
use ledger::{Entry, Leg};

/// The leg, if account, column and amount are in range.
fn leg_in_range(account: u64, column: u8, amount: i128) -> Option<Leg>
    ensures { result ≡ (if in_range (leg account column amount) then Some (leg account column amount) else None) }
{
    let leg = Leg {
        account: u8::try_from(account).ok()?,
        column,
        amount: i64::try_from(amount).ok()?,
    };
    leg.is_in_range().then_some(leg)
}

impl Draft {
    /// A draft without legs.
    pub(crate) fn new() -> Draft
        ensures { drawn result ≡ Some [] }
    {
        Draft {
            legs: Some(ArrayVec::new()),
        }
    }

    /// Adds a leg, if the draft takes it.
    #[tactic(auto, unfolding(crate::specs::Drafts::with_leg))]
    fn try_add_leg(&mut self, account: u64, column: u8, amount: i128) -> Option<()>
        ensures { option_and_then (λ _. drawn self.new) result ≡ with_leg (drawn self.old) (leg account column amount) }
    {
        let leg = leg_in_range(account, column, amount)?;
        self.legs.as_mut()?.try_push(leg).ok()
    }

    /// Adds a leg, whose account and amount may be any.
    pub(crate) fn add_leg(&mut self, account: u64, column: u8, amount: i128)
        ensures { drawn self.new ≡ with_leg (drawn self.old) (leg account column amount) }
    {
        if self.try_add_leg(account, column, amount).is_none() {
            self.legs = None;
        }
    }

    /// The entry that the legs make; the empty one where they make none.
    pub(crate) fn entry(&self) -> Entry
        ensures { legs_of result ≡ entry_in (drawn self.now) }
    {
        self.legs
            .as_ref()
            .and_then(|legs| Entry::new(legs.as_slice()))
            .unwrap_or_else(Entry::empty)
    }
}
