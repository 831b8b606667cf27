//! What an accepted request answers.
use apportion::MOST_SHARES;
use arrayvec::ArrayVec;
use money::Minor;

/// What an accepted request answers: nothing more, what a conversion booked and its slip's number, the portions of a
/// split in the order of its shares, or what a sweep moved.
#[derive(Drop)]
pub enum Reply {
    Done,
    Converted { booked: Minor, number: u32 },
    Split(ArrayVec<Minor, MOST_SHARES>),
    Swept(Minor),
}
