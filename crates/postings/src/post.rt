//! The entry of a post, or its refusal.
ghost use Rattle.std.specs.Prelude.{◌≡◌, ◌≤◌, length};
ghost use Rattle.register.specs.Register.{book_answer};
ghost use Rattle.money.specs.Table.{number_of};
ghost use Rattle.ledger.specs.Entries.{most_legs, is_zero};
ghost use Rattle.ledger.specs.Legs.{column_sum};
ghost use Rattle.model.specs.Step.{postable as is_postable, posted_leg, posted_legs};
ghost use Rattle.postings.specs.Posts.{lowest_unbalanced, posted, legs_in, items_in};

use apportion::is_named;
use arrayvec::ArrayVec;
use ledger::{Entry, Leg, MOST_LEGS, column_sum};
use model::Posting;
use money::{Currency, MOST_AMOUNT, Minor};
use register::{BookCause, BookFault, Placed};

/// The least legs of a post.
pub const LEAST_LEGS: usize = 2;

/// Whether an amount is from 1 to `MOST_AMOUNT`, either way.
fn postable(amount: Minor) -> bool
    ensures { result ≡ is_postable amount.0 }
{
    amount.0 != 0 && (-MOST_AMOUNT..=MOST_AMOUNT).contains(&amount.0)
}

/// The leg at a place of a post.
fn posted_leg(posting: Posting, place: usize) -> Result<Leg, BookFault>
    ensures { book_answer result ≡ posted_leg place posting }
{
    if !is_named(posting.account) {
        return Err(Placed::at(BookCause::AccountNotNamed, place));
    }
    let unknown = Placed::at(BookCause::UnknownCurrency, place);
    let currency = Currency::from_number(posting.currency).ok_or(unknown)?;
    if !postable(posting.amount) {
        return Err(Placed::at(BookCause::AmountOutOfRange, place));
    }
    Ok(Leg::money(posting.account as u8, currency, posting.amount))
}

/// The legs of a post.
fn posted_legs(postings: &[Posting]) -> Result<ArrayVec<Leg, MOST_LEGS>, BookFault>
    requires { length postings.now ≤ most_legs }
    ensures { items_in (book_answer result) ≡ posted_legs 1 postings.now }
{
    let mut legs = ArrayVec::new();
    for (i, posting) in postings.iter().enumerate() {
        legs.push(posted_leg(*posting, i + 1)?);
    }
    Ok(legs)
}

/// Whether the legs sum to zero in a currency.
fn is_balanced(legs: &[Leg], currency: Currency) -> bool
    ensures { result ≡ is_zero (column_sum legs.now (number_of currency)) }
{
    column_sum(legs, currency.number() as u64) == 0
}

/// The lowest currency in which the legs do not sum to zero.
fn lowest_unbalanced(legs: &[Leg]) -> Option<Currency>
    ensures { result ≡ lowest_unbalanced legs.now }
{
    Currency::ALL
        .iter()
        .find(|currency| !is_balanced(legs, **currency))
        .copied()
}

/// The legs of a post as they stand. Refused 6 for their number; then 4, 2 or 5 at the place of the first leg whose
/// account, currency or amount is wrong; then 7 with the number of the lowest currency that does not sum to zero.
#[tactic(auto, unfolding(crate::specs::Posts::posted))]
pub fn post_entry(postings: &[Posting]) -> Result<Entry, BookFault>
    ensures { legs_in (book_answer result) ≡ posted postings.now }
{
    if !(LEAST_LEGS..=MOST_LEGS).contains(&postings.len()) {
        return Err(BookCause::LegCount.into());
    }
    let legs = posted_legs(postings)?;
    if let Some(currency) = lowest_unbalanced(legs.as_slice()) {
        return Err(Placed::at(BookCause::Unbalanced, currency.number() as usize));
    }
    // Legs in range that balance make an entry.
    Ok(Entry::new(legs.as_slice()).unwrap())
}
