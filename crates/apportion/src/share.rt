//! The shares of a split.

/// An account and its weight, as a line gives them: the check of a split tests both.
#[derive(Clone, Copy, Default)]
pub struct Share {
    pub account: u64,
    pub weight: u64,
}

/// What a tie rule may look at: a share and its place in the list, from 0.
// not a pair of both, so that a rule reads `a.weight`
#[derive(Clone, Copy)]
pub struct Candidate {
    pub account: u64,
    pub weight: u64,
    pub place: usize,
}
