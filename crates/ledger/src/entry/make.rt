//! Making entries, and reading their legs.
ghost use Rattle.std.specs.Prelude.{◌≡◌, [], Some, None, is_some, if◌then◌else◌, Decides};
ghost use Rattle.std.specs.Option.{option_map};
ghost use Rattle.ledger.specs.Entries.{EntryLegs, is_entry};
ghost use Rattle.ledger.specs.Held.{legs_of};

use super::Entry;
use crate::balance::is_entry;
use crate::leg::Leg;
use arrayvec::ArrayVec;

impl Entry {
    /// The entry without legs.
    pub fn empty() -> Entry
        ensures { legs_of result ≡ [] }
    {
        Entry {
            legs: ArrayVec::new(),
        }
    }

    /// The entry of these legs, exactly if they make one.
    pub fn new(legs: &[Leg]) -> Option<Entry>
        ensures tells { Decides (is_some result) (EntryLegs legs.now) }
        ensures value { option_map legs_of result ≡ (if is_entry legs.now then Some legs.now else None) }
    {
        if !is_entry(legs) {
            return None;
        }
        let mut stored = ArrayVec::new();
        stored.try_extend_from_slice(legs).ok()?;
        Some(Entry { legs: stored })
    }

    /// Puts the entry of these legs in the place of this one and says yes, exactly if they make one; else leaves the empty
    /// entry. By a rule of the project a making leaves an entry in the caller's place, whatever it says.
    pub fn make(&mut self, legs: &[Leg]) -> bool
        ensures tells { Decides result (EntryLegs legs.now) }
        ensures value { result ≡ is_entry legs.now }
        ensures holds { legs_of self.new ≡ (if result then legs.now else []) }
    {
        let made = Entry::new(legs);
        let says = made.is_some();
        *self = made.unwrap_or_else(Entry::empty);
        says
    }

    /// The legs, in order. They make an entry.
    pub fn legs(&self) -> &[Leg]
        ensures value { result.now ≡ legs_of self.now }
        ensures lawful { EntryLegs result.now }
    {
        self.legs.as_slice()
    }
}
