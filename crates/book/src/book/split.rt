//! Splitting an amount among shares.
ghost use Rattle.std.specs.Prelude.{◌≡◌, ◌≤◌, ◌++◌, length, take, drop, is_ok, IfOk, if◌then◌else◌, unsigned_abs};
ghost use Rattle.apportion.specs.Splits.{portions as portions_of, fractions as fractions_of};
ghost use Rattle.apportion.specs.Ties.{Lawful};
ghost use Rattle.model.specs.Calls.{split};
ghost use Rattle.model.specs.Step.{step, unchanged, splitting};
ghost use Rattle.book.specs.Proposals.{entering, proposes, Writable};
ghost use Rattle.book.specs.View.{state_of, split_answer};

use super::Book;
use super::currency::currency_at;
use super::refusal::check_named;
use apportion::{Fraction, MOST_SHARES, Share, TieRule, apportion};
use ledger::{Entry, Ledger};
use model::Division;
use money::Minor;
use postings::split_entry;
use register::{BookCause, BookFault, Fault};

// Portions and fractions are two lists because the caller lends two, each with a length that may be refused. Rule, division
// and shares are handed on as the caller gave them, each borrowed for the call.

/// How long the lists are that a caller lends.
#[derive(Clone, Copy)]
struct Lent {
    portions: usize,
    fractions: usize,
}

/// What a split gives, at the front of lists of its own, and its entry. Nothing is written to the caller's lists
/// before the ledger has taken the entry.
#[derive(Drop)]
struct Apportioned {
    portions: [Minor; MOST_SHARES],
    fractions: [Fraction; MOST_SHARES],
    entry: Entry,
}

/// Copies a list over the front of another that is long enough.
fn copy_over<T: Copy>(list: &[T], into: &mut [T])
    requires { length list.now ≤ length into.old }
    ensures { into.new ≡ list.now ++ drop (length list.now) into.old }
{
    into[0..list.len()].copy_from_slice(list);
}

impl<L: Ledger> Book<L> {
    /// The apportionment of a split: refused 1, 2, 4, then as `apportion` refuses it.
    fn propose_split<R: TieRule>(
        &self,
        rule: &R,
        division: Division,
        shares: &[Share],
        lent: Lent,
    ) -> Result<Apportioned, BookFault>
        ensures value { proposes (λ p. entering (take (length shares.now) p.portions, take (length shares.now) p.fractions) p.entry unchanged) result ≡ splitting (state_of L.Balances self.now) (R.TieRule.tie rule.now) division shares.now lent.portions lent.fractions }
        ensures portions { IfOk result (λ p. Writable shares.now (portions_of (R.TieRule.tie rule.now) (unsigned_abs division.amount.0) shares.now) p.portions lent.portions) }
        ensures fractions { IfOk result (λ p. Writable shares.now (fractions_of (R.TieRule.tie rule.now) (unsigned_abs division.amount.0) shares.now) p.fractions lent.fractions) }
    {
        self.check_fit()?;
        let currency = currency_at(division.currency)?;
        check_named(division.account)?;
        let mut portions = [Minor(0); MOST_SHARES];
        let mut fractions = [Fraction(0); MOST_SHARES];
        apportion(rule, division.amount, shares, &mut portions, &mut fractions)?;
        if lent.portions < shares.len() || lent.fractions < shares.len() {
            return Err(BookCause::ListsTooShort.into());
        }
        let entry = split_entry(division, currency, shares, &portions[0..shares.len()]);
        Ok(Apportioned {
            portions,
            fractions,
            entry,
        })
    }

    /// Has the ledger take the entry of a split, and then writes both lists.
    pub(super) fn enter_split<R: TieRule>(
        &mut self,
        rule: &R,
        division: Division,
        shares: &[Share],
        portions: &mut [Minor],
        fractions: &mut [Fraction],
    ) -> Result<(), Fault>
        ensures step { (law : Lawful (R.TieRule.tie rule.now)) → (split_answer result (take (length shares.now) portions.new) (take (length shares.now) fractions.new), state_of L.Balances self.new) ≡ step (state_of L.Balances self.old) (split (R.TieRule.tie rule.now) law division shares.now (length portions.old) (length fractions.old)) }
        ensures portions { portions.new ≡ (if is_ok result then portions_of (R.TieRule.tie rule.now) (unsigned_abs division.amount.0) shares.now ++ drop (length shares.now) portions.old else portions.old) }
        ensures fractions { fractions.new ≡ (if is_ok result then fractions_of (R.TieRule.tie rule.now) (unsigned_abs division.amount.0) shares.now ++ drop (length shares.now) fractions.old else fractions.old) }
    {
        let lent = Lent {
            portions: portions.len(),
            fractions: fractions.len(),
        };
        let given = self.propose_split(rule, division, shares, lent)?;
        self.ledger.take(&given.entry)?;
        copy_over(&given.portions[0..shares.len()], portions);
        copy_over(&given.fractions[0..shares.len()], fractions);
        Ok(())
    }
}
