//! The calls that may move something. Each is one step of the model, and so keeps the law of conservation.
ghost use Rattle.std.specs.Prelude.{◌≡◌, ◌++◌, length, take, drop, is_ok, IfOk, if◌then◌else◌, unsigned_abs};
ghost use Rattle.register.specs.Register.{answer};
ghost use Rattle.apportion.specs.Splits.{portions as portions_of, fractions as fractions_of};
ghost use Rattle.apportion.specs.Ties.{Lawful};
ghost use Rattle.model.specs.Calls.{post, convert, split, take_up, sweep};
ghost use Rattle.model.specs.Conservation.{StillConserved};
ghost use Rattle.model.specs.Step.{step};
ghost use Rattle.book.specs.View.{state_of, slip_answer, conversion_answer, split_answer};

use super::Book;
use crate::slip::Slip;
use apportion::{Fraction, Share, TieRule};
use ledger::Ledger;
use model::{Division, Exchange, Posting};
use money::Minor;
use register::Fault;

// Each hands on to a function that bears the step alone, from which the law follows once. The step and the law of a split stand
// for every proof that the rule is lawful, since a clause cannot cite the law of a trait.
impl<L: Ledger> Book<L> {
    /// Posts legs that balance in every currency.
    pub fn post(&mut self, postings: &[Posting]) -> Result<(), Fault>
        ensures step { (answer result, state_of L.Balances self.new) ≡ step (state_of L.Balances self.old) (post postings.now) }
        ensures law { StillConserved (state_of L.Balances self.old) (post postings.now) (answer result) (state_of L.Balances self.new) }
    {
        self.enter_post(postings)
    }

    /// Converts an amount and books what it comes to. Its residues go to the docket account, and the slip is the right
    /// to them.
    pub fn convert(&mut self, exchange: Exchange) -> Result<(Minor, Slip), Fault>
        ensures step { (conversion_answer result, state_of L.Balances self.new) ≡ step (state_of L.Balances self.old) (convert exchange) }
        ensures marked { IfOk result (λ p. p.1.mark ≡ self.old.mark) }
        ensures law { StillConserved (state_of L.Balances self.old) (convert exchange) (conversion_answer result) (state_of L.Balances self.new) }
    {
        let (booked, number) = self.issue(exchange)?;
        Ok((booked, Slip::new(self.mark, number)))
    }

    /// Splits an amount among shares by largest remainders, then by tie rule. Portions and fractions go to the front
    /// of their lists; what follows, and on a refusal all of both lists, stays as it is.
    pub fn split<R: TieRule>(
        &mut self,
        rule: &R,
        division: Division,
        shares: &[Share],
        portions: &mut [Minor],
        fractions: &mut [Fraction],
    ) -> Result<(), Fault>
        ensures step { (law : Lawful (R.TieRule.tie rule.now)) → (split_answer result (take (length shares.now) portions.new) (take (length shares.now) fractions.new), state_of L.Balances self.new) ≡ step (state_of L.Balances self.old) (split (R.TieRule.tie rule.now) law division shares.now (length portions.old) (length fractions.old)) }
        ensures portions { portions.new ≡ (if is_ok result then portions_of (R.TieRule.tie rule.now) (unsigned_abs division.amount.0) shares.now ++ drop (length shares.now) portions.old else portions.old) }
        ensures fractions { fractions.new ≡ (if is_ok result then fractions_of (R.TieRule.tie rule.now) (unsigned_abs division.amount.0) shares.now ++ drop (length shares.now) fractions.old else fractions.old) }
        ensures law { (law : Lawful (R.TieRule.tie rule.now)) → StillConserved (state_of L.Balances self.old) (split (R.TieRule.tie rule.now) law division shares.now (length portions.old) (length fractions.old)) (split_answer result (take (length shares.now) portions.new) (take (length shares.now) fractions.new)) (state_of L.Balances self.new) }
    {
        self.enter_split(rule, division, shares, portions, fractions)
    }

    /// The slip of a parked number, which is then out.
    pub fn take_up(&mut self, number: u64) -> Result<Slip, Fault>
        ensures step { (slip_answer result, state_of L.Balances self.new) ≡ step (state_of L.Balances self.old) (take_up number) }
        ensures marked { IfOk result (λ p. p.mark ≡ self.old.mark) }
        ensures law { StillConserved (state_of L.Balances self.old) (take_up number) (slip_answer result) (state_of L.Balances self.new) }
    {
        let number = self.reissue(number)?;
        Ok(Slip::new(self.mark, number))
    }

    /// Moves the whole minor units in an account's fraction column into its money column, at most 1,000 at a time,
    /// and answers how many.
    pub fn sweep(&mut self, account: u64, column: u64) -> Result<Minor, Fault>
        ensures step { (answer result, state_of L.Balances self.new) ≡ step (state_of L.Balances self.old) (sweep account column) }
        ensures law { StillConserved (state_of L.Balances self.old) (sweep account column) (answer result) (state_of L.Balances self.new) }
    {
        self.enter_sweep(account, column)
    }
}
