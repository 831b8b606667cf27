//! Which of two shares with equal remainders is served first.
ghost use Rattle.std.specs.Prelude.{◌≡◌};
ghost use Rattle.apportion.specs.Ties.{Tie, Lawful, by_place, by_weight};
ghost use Rattle.std.proofs.Common.{rules};

use crate::share::Candidate;
use std::cmp::Reverse;

/// A tie rule: it looks at weight, account and place of two shares.
pub trait TieRule {
    /// What the rule says of two candidates.
    ghost tie: { Self → Tie };

    /// Whether the first candidate is ahead of the second.
    fn ahead(&self, a: Candidate, b: Candidate) -> bool
        ensures { result ≡ tie self.now a b };

    /// No share is ahead of itself; of two at different places exactly one is ahead; being ahead is transitive.
    ghost lawful: { (rule : Self) → Lawful (tie rule) };
}

/// The smaller place is ahead.
#[derive(Clone, Copy)]
pub struct SmallerPlace;

impl TieRule for SmallerPlace {
    ghost tie = { λ _. by_place };

    ghost lawful = { Prim.search rules };

    fn ahead(&self, a: Candidate, b: Candidate) -> bool {
        a.place < b.place
    }
}

/// The larger weight is ahead, and at equal weights the smaller place.
#[derive(Clone, Copy)]
pub struct LargerWeight;

impl TieRule for LargerWeight {
    ghost tie = { λ _. by_weight };

    ghost lawful = { Prim.search rules };

    fn ahead(&self, a: Candidate, b: Candidate) -> bool {
        (Reverse(a.weight), a.place) < (Reverse(b.weight), b.place)
    }
}
