//! What an amount and its shares must be to be split.
ghost use Rattle.std.specs.Prelude.{◌≡◌, ◌≤◌, length};
ghost use Rattle.register.specs.Register.{book_answer};
ghost use Rattle.apportion.specs.Refusals.{Checks, checked, each_share, some_weight, most_shares};

use crate::account::is_named;
use crate::share::Share;
use money::{MOST_AMOUNT, Minor};
use register::{BookCause, BookFault, Placed};

/// The most shares that a split may have.
pub const MOST_SHARES: usize = 15;

/// The largest weight of a share.
pub const MOST_WEIGHT: u64 = 1_000_000;

/// W, the sum of the weights, or the first share that is refused, or a W of 0.
#[tactic(auto, using(crate::proofs::Checks::shares_pass, crate::proofs::Checks::weights_all))]
fn sum_of_weights(shares: &[Share]) -> Result<u64, BookFault>
    requires { length shares.now ≤ most_shares }
    ensures { book_answer result ≡ each_share 1 shares.now (some_weight shares.now) }
{
    let mut sum = 0;
    for (i, share) in shares.iter().enumerate() {
        if !is_named(share.account) {
            return Err(Placed::at(BookCause::AccountNotNamed, i + 1));
        }
        if share.weight > MOST_WEIGHT {
            return Err(Placed::at(BookCause::Shares, i + 1));
        }
        sum += share.weight;
    }
    if sum == 0 {
        return Err(BookCause::Shares.into());
    }
    Ok(sum)
}

/// W, the sum of the weights, or the first thing that is wrong with the amount and the shares.
pub fn check(amount: Minor, shares: &[Share]) -> Result<u64, BookFault>
    ensures value { book_answer result ≡ checked amount.0 shares.now }
    ensures exactly { Checks amount.0 shares.now result }
{
    if !(1..=MOST_AMOUNT).contains(&amount.0) {
        return Err(BookCause::AmountOutOfRange.into());
    }
    if shares.is_empty() || shares.len() > MOST_SHARES {
        return Err(BookCause::Shares.into());
    }
    sum_of_weights(shares)
}
