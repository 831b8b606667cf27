//! Hamilton's largest remainders.
ghost use Rattle.std.specs.Prelude.{◌≡◌, ◌<◌, ◌≤◌, length, take, is_ok, if◌then◌else◌, OnOk, unsigned_abs};
ghost use Rattle.register.specs.Register.{book_answer};
ghost use Rattle.money.specs.Conversions.{minors};
ghost use Rattle.apportion.specs.Laws.{Fair};
ghost use Rattle.apportion.specs.Places.{sum_below};
ghost use Rattle.apportion.specs.Refusals.{Divisible, verdict};
ghost use Rattle.apportion.specs.Splits.{quotient, remainder, units_left, before, rank, candidate_at, portion, fraction, fraction_of, portions as portions_of, fractions as fractions_of, over};

use crate::fraction::Fraction;
use crate::limits::check;
use crate::share::{Candidate, Share};
use crate::tie::TieRule;
use money::Minor;
use register::{BookCause, BookFault};

/// An amount and its shares, which passed the check, the sum of their weights, and the rule for ties.
#[derive(Drop)]
struct Division<'a, R> {
    rule: &'a R,
    amount: u64,
    shares: &'a [Share],
    weights: u64,
    ghost divisible: { Divisible amount shares.now weights },
}

/// What a share gets: whole units, and by how much they miss its exact part.
#[derive(Clone, Copy)]
struct Part {
    portion: Minor,
    fraction: Fraction,
}

// A place is below the number of shares of one division, which no type of its own could say more shortly.
impl<'a, R: TieRule> Division<'a, R> {
    /// What the share at place `i` first gets: its exact part rounded down.
    #[tactic(auto, using(crate::proofs::Bounds::quotient_small), unfolding(crate::specs::Splits::quotient))]
    fn quotient(&self, i: usize) -> u64
        requires { i < length self.now.shares.now }
        ensures value { result ≡ quotient self.now.amount self.now.shares.now i }
        ensures most { result ≤ self.now.amount }
    {
        self.amount * self.shares[i].weight / self.weights
    }

    /// What that leaves of the exact part, in parts of 1 ÷ W.
    #[tactic(auto, unfolding(crate::specs::Splits::remainder))]
    fn remainder(&self, i: usize) -> u64
        requires { i < length self.now.shares.now }
        ensures value { result ≡ remainder self.now.amount self.now.shares.now i }
        ensures below { result < self.now.weights }
    {
        self.amount * self.shares[i].weight % self.weights
    }

    /// The units that all shares first get.
    fn units_given(&self) -> u64
        ensures { result ≡ sum_below (quotient self.now.amount self.now.shares.now) (length self.now.shares.now) }
    {
        (0..self.shares.len()).map(|i| self.quotient(i)).sum()
    }

    /// The units left when every share has what it first gets.
    #[tactic(auto, using(crate::proofs::Bounds::units_within), unfolding(crate::specs::Splits::units_left))]
    fn units_left(&self) -> u64
        ensures { result ≡ units_left self.now.amount self.now.shares.now }
    {
        self.amount - self.units_given()
    }

    /// The share at a place as a tie rule sees it.
    fn candidate(&self, place: usize) -> Candidate
        requires { place < length self.now.shares.now }
        ensures { result ≡ candidate_at self.now.shares.now place }
    {
        let Share { account, weight } = self.shares[place];
        Candidate {
            account,
            weight,
            place,
        }
    }

    /// Whether the share at place `i` comes before that at place `j`.
    #[tactic(auto, unfolding(crate::specs::Splits::before))]
    fn comes_before(&self, i: usize, j: usize) -> bool
        requires one { i < length self.now.shares.now }
        requires other { j < length self.now.shares.now }
        ensures { result ≡ before (R.TieRule.tie self.now.rule.now) self.now.amount self.now.shares.now i j }
    {
        let x = self.remainder(i);
        let y = self.remainder(j);
        if x == y {
            self.rule.ahead(self.candidate(i), self.candidate(j))
        } else {
            x > y
        }
    }

    /// How many shares come before that at place `i`.
    fn rank(&self, i: usize) -> u64
        requires { i < length self.now.shares.now }
        ensures { result ≡ rank (R.TieRule.tie self.now.rule.now) self.now.amount self.now.shares.now i }
    {
        // Summed, since `filter(..).count()` takes six times as long.
        (0..self.shares.len())
            .map(|k| u64::from(self.comes_before(k, i)))
            .sum()
    }

    /// What the share at place `i` gets where so many units are left.
    fn part(&self, left: u64, i: usize) -> Part
        requires left { left ≡ units_left self.now.amount self.now.shares.now }
        requires within { i < length self.now.shares.now }
        ensures portion { result.portion ≡ minors (portion (R.TieRule.tie self.now.rule.now) self.now.amount self.now.shares.now i) }
        ensures fraction { result.fraction ≡ fraction_of (fraction (R.TieRule.tie self.now.rule.now) self.now.amount self.now.shares.now i) }
    {
        let quotient = self.quotient(i) as i64;
        let remainder = self.remainder(i) as i64;
        if self.rank(i) < left {
            Part {
                portion: Minor(quotient + 1),
                fraction: Fraction(remainder - self.weights as i64),
            }
        } else {
            Part {
                portion: Minor(quotient),
                fraction: Fraction(remainder),
            }
        }
    }

    /// Writes every portion and every fraction to the front of two lists that are long enough.
    fn fill(&self, portions: &mut [Minor], fractions: &mut [Fraction])
        requires portions { length self.now.shares.now ≤ length portions.old }
        requires fractions { length self.now.shares.now ≤ length fractions.old }
        ensures portions { portions.new ≡ over (portions_of (R.TieRule.tie self.now.rule.now) self.now.amount self.now.shares.now) portions.old }
        ensures fractions { fractions.new ≡ over (fractions_of (R.TieRule.tie self.now.rule.now) self.now.amount self.now.shares.now) fractions.old }
    {
        let left = self.units_left();
        // By index: of lists that are written through `iter_mut().zip(..)` a proof knows the lengths alone.
        for i in 0..self.shares.len() {
            let part = self.part(left, i);
            portions[i] = part.portion;
            fractions[i] = part.fraction;
        }
    }
}

/// Splits an amount by weights: each share gets its exact part rounded down, and what is left goes one unit each
/// to the first shares by larger remainder, then by tie rule. Portions and fractions go to the front of their
/// lists; what follows, and on a refusal all of both lists, stays as it is.
pub fn apportion<R: TieRule>(
    rule: &R,
    amount: Minor,
    shares: &[Share],
    portions: &mut [Minor],
    fractions: &mut [Fraction],
) -> Result<(), BookFault>
    ensures value { book_answer result ≡ verdict amount.0 shares.now (length portions.old) (length fractions.old) }
    ensures portions { portions.new ≡ (if is_ok result then over (portions_of (R.TieRule.tie rule.now) (unsigned_abs amount.0) shares.now) portions.old else portions.old) }
    ensures fractions { fractions.new ≡ (if is_ok result then over (fractions_of (R.TieRule.tie rule.now) (unsigned_abs amount.0) shares.now) fractions.old else fractions.old) }
    ensures fair { OnOk result (Fair (R.TieRule.tie rule.now) amount.0 shares.now (take (length shares.now) portions.new) (take (length shares.now) fractions.new)) }
{
    let weights = check(amount, shares)?;
    if portions.len() < shares.len() || fractions.len() < shares.len() {
        return Err(BookCause::ListsTooShort.into());
    }
    let division = Division {
        rule,
        amount: amount.0 as u64,
        shares,
        weights,
    };
    division.fill(portions, fractions);
    Ok(())
}
