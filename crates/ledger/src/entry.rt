//! A balanced list of legs, which a ledger takes whole or not at all.
ghost use Rattle.std.specs.Prelude.{◌≡◌, true};
ghost use Rattle.ledger.specs.Entries.{is_entry};

use crate::leg::Leg;
use arrayvec::ArrayVec;

mod make;

/// The most legs of an entry.
pub const MOST_LEGS: usize = 16;

/// At most 16 legs, each in range, that sum to zero in every column.
#[derive(Drop)]
pub struct Entry {
    legs: ArrayVec<Leg, MOST_LEGS>,
    ghost ok: { is_entry legs.items ≡ true },
}
