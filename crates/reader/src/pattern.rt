//! The patterns of lines: the first word says what a line asks for, and the others follow in their places.
ghost use Rattle.std.specs.Prelude.{◌≡◌, ◌<◌, ◌≤◌, map, length, Some};
ghost use Rattle.std.specs.Option.{option_map};
ghost use Rattle.register.specs.Register.{reader_answer};
ghost use Rattle.reader.specs.Kinds.{view};
ghost use Rattle.reader.specs.Limits.{most_words, most_pairs};
ghost use Rattle.reader.specs.Requests.{asked, listed, given_by, verb_of, one_posting, shares_of, two_numbers, read_as, read_words, read_line};
ghost use Rattle.reader.specs.Writing.{Answers};

use crate::request::{MOST_PAIRS, MOST_POSTINGS, MOST_WORDS, Request};
use crate::word::{Word, split_words};
use apportion::Share;
use arrayvec::ArrayVec;
use model::{Division, Exchange, Posting};
use register::{ReaderCause, ReaderFault};

/// The first word of a line.
// an enum and a match, and no closures: the patterns of lines are a closed list
#[derive(Clone, Copy)]
enum Verb {
    Post,
    Conv,
    Split,
    Carry,
    Sweep,
}

/// The refusal of a line that has no known pattern.
const UNKNOWN_PATTERN: ReaderFault = ReaderFault {
    cause: ReaderCause::UnknownPattern,
    place: 1,
};

fn read_verb(text: &[u8]) -> Option<Verb>
    ensures { result ≡ verb_of text.now }
{
    match text {
        b"post" => Some(Verb::Post),
        b"conv" => Some(Verb::Conv),
        b"split" => Some(Verb::Split),
        b"carry" => Some(Verb::Carry),
        b"sweep" => Some(Verb::Sweep),
        _ => None,
    }
}

#[tactic(auto, unfolding(crate::specs::Requests::posting_of))]
fn read_posting(words: &[Word<'_>]) -> Result<Posting, ReaderFault>
    ensures { reader_answer result ≡ one_posting (map view words.now) }
{
    let [account, code, amount] = words else {
        return Err(UNKNOWN_PATTERN);
    };
    Ok(Posting {
        account: account.number()?,
        currency: code.currency()?,
        amount: amount.signed()?,
    })
}

// The bound on the words stays a clause, here and below: no type of a slice says how long it is.
fn read_post(words: &[Word<'_>]) -> Result<Request, ReaderFault>
    requires { length words.now < most_words }
    ensures { given_by asked (reader_answer result) ≡ read_as (Some Verb.Post) (map view words.now) }
{
    if words.len() % 3 != 0 {
        return Err(UNKNOWN_PATTERN);
    }
    // room for the postings of a line of the most words, and for no more
    prove!(MOST_POSTINGS == (MOST_WORDS - 1) / 3);
    let mut postings = ArrayVec::new();
    for triple in words.chunks_exact(3) {
        postings.push(read_posting(triple)?);
    }
    Ok(Request::Post(postings))
}

fn read_conv(words: &[Word<'_>]) -> Result<Request, ReaderFault>
    ensures { given_by asked (reader_answer result) ≡ read_as (Some Verb.Conv) (map view words.now) }
{
    let [from, to, source, target, amount] = words else {
        return Err(UNKNOWN_PATTERN);
    };
    Ok(Request::Convert(Exchange {
        from: from.number()?,
        to: to.number()?,
        source: source.currency()?,
        target: target.currency()?,
        amount: amount.amount()?,
    }))
}

fn read_shares(words: &[Word<'_>]) -> Result<ArrayVec<Share, MOST_PAIRS>, ReaderFault>
    requires { length words.now ≤ most_pairs }
    ensures { given_by listed (reader_answer result) ≡ shares_of (map view words.now) }
{
    // room for the pairs of a line of the most words, and for no more
    prove!(MOST_PAIRS == MOST_WORDS - 4);
    let mut shares = ArrayVec::new();
    for word in words {
        shares.push(word.share()?);
    }
    Ok(shares)
}

fn read_split(words: &[Word<'_>]) -> Result<Request, ReaderFault>
    requires { length words.now < most_words }
    ensures { given_by asked (reader_answer result) ≡ read_as (Some Verb.Split) (map view words.now) }
{
    let [account, code, amount, pairs @ ..] = words else {
        return Err(UNKNOWN_PATTERN);
    };
    Ok(Request::Split {
        division: Division {
            account: account.number()?,
            currency: code.currency()?,
            amount: amount.amount()?,
        },
        shares: read_shares(pairs)?,
    })
}

/// The numbers that two words are.
fn read_two_numbers(words: &[Word<'_>]) -> Result<(u64, u64), ReaderFault>
    ensures { reader_answer result ≡ two_numbers (map view words.now) }
{
    let [first, second] = words else {
        return Err(UNKNOWN_PATTERN);
    };
    Ok((first.number()?, second.number()?))
}

/// Reads the words after the first by the pattern that it asks for.
fn read_as(verb: Verb, words: &[Word<'_>]) -> Result<Request, ReaderFault>
    requires { length words.now < most_words }
    ensures { given_by asked (reader_answer result) ≡ read_as (Some verb) (map view words.now) }
{
    match verb {
        Verb::Post => read_post(words),
        Verb::Conv => read_conv(words),
        Verb::Split => read_split(words),
        Verb::Carry => {
            read_two_numbers(words).map(|(number, account)| Request::Carry { number, account })
        }
        Verb::Sweep => {
            read_two_numbers(words).map(|(account, column)| Request::Sweep { account, column })
        }
    }
}

fn read_words(words: &[Word<'_>]) -> Result<Option<Request>, ReaderFault>
    requires { length words.now ≤ most_words }
    ensures { given_by (option_map asked) (reader_answer result) ≡ read_words (map view words.now) }
{
    let [first, rest @ ..] = words else {
        return Ok(None);
    };
    let verb = read_verb(first.text()).ok_or(UNKNOWN_PATTERN)?;
    let request = read_as(verb, rest)?;
    Ok(Some(request))
}

/// What a line asks for, or why it is refused. A line without words asks for nothing.
pub fn read_line(line: &[u8]) -> Result<Option<Request>, ReaderFault>
    ensures value { given_by (option_map asked) (reader_answer result) ≡ read_line line.now }
    ensures answers { Answers line.now (given_by (option_map asked) (reader_answer result)) }
{
    // a list of words costs as much to make for an empty line as for any
    if line.is_empty() {
        return Ok(None);
    }
    let mut words = ArrayVec::new();
    split_words(line, &mut words).ok_or(UNKNOWN_PATTERN)?;
    read_words(words.as_slice())
}
