//! The words of a line, and what each says.
ghost use Rattle.std.specs.Prelude.{◌≡◌, ◌<◌, [], map, length, MatchOption};
ghost use Rattle.register.specs.Register.{reader_answer};
ghost use Rattle.register.specs.declared.cause.ReaderCause.TheVariants.{UnreadableWord};
ghost use Rattle.reader.specs.Kinds.{kind_of, view, words_in};
ghost use Rattle.reader.specs.Limits.{most_words};
ghost use Rattle.reader.specs.Requests.{number_at, amount_at, signed_at, currency_at, share_at};
ghost use Rattle.reader.specs.Words.{words_of};

use crate::number::{ShortNumber, code, number, pair, signed};
use crate::request::MOST_WORDS;
use crate::split::{count_before, count_leading};
use apportion::Share;
use arrayvec::ArrayVec;
use money::{Currency, Minor};
use register::{Placed, ReaderCause, ReaderFault};

/// The part of a line that a word is: the column of its first byte, from 1, and its bytes.
#[derive(Clone, Copy, Default)]
pub(crate) struct Span<'a> {
    column: usize,
    text: &'a [u8],
}

/// A word of a line, and what it says. A name is what is nothing else. A rule of the project: a word is an enum of cases
/// that borrow the line.
#[derive(Clone, Copy)]
pub(crate) enum Word<'a> {
    Name(Span<'a>),
    Number(Span<'a>, ShortNumber),
    Signed(Span<'a>, i64),
    Code(Span<'a>, [u8; 3]),
    Pair(Span<'a>, ShortNumber, ShortNumber),
}

/// What an unused place of a list of words holds.
impl Default for Word<'_> {
    fn default() -> Self {
        Word::Name(Span::default())
    }
}

impl<'a> Word<'a> {
    fn span(&self) -> Span<'a>
        ensures column { result.column ≡ (view self.now).column }
        ensures text { result.text.now ≡ (view self.now).text }
    {
        match self {
            Word::Name(span)
            | Word::Number(span, _)
            | Word::Signed(span, _)
            | Word::Code(span, _)
            | Word::Pair(span, _, _) => *span,
        }
    }

    /// The bytes of the word.
    pub(crate) fn text(&self) -> &'a [u8]
        ensures { result.now ≡ (view self.now).text }
    {
        self.span().text
    }

    /// The refusal of a word that is not of the kind that its place asks for.
    fn unreadable(&self) -> ReaderFault
        ensures { result ≡ record { cause = UnreadableWord; place = (view self.now).column } }
    {
        Placed::at(ReaderCause::UnreadableWord, self.span().column)
    }

    /// The number that the word is.
    #[tactic(auto, unfolding(crate::specs::Requests::number_at))]
    pub(crate) fn number(&self) -> Result<u64, ReaderFault>
        ensures { reader_answer result ≡ number_at (view self.now) }
    {
        match self {
            Word::Number(_, value) => Ok(u64::from(*value)),
            _ => Err(self.unreadable()),
        }
    }

    /// The number that the word is, as an amount.
    #[tactic(auto, unfolding(crate::specs::Requests::amount_at))]
    pub(crate) fn amount(&self) -> Result<Minor, ReaderFault>
        ensures { reader_answer result ≡ amount_at (view self.now) }
    {
        match self {
            Word::Number(_, value) => Ok(Minor(i64::from(*value))),
            _ => Err(self.unreadable()),
        }
    }

    /// The signed number that the word is, as an amount.
    #[tactic(auto, unfolding(crate::specs::Requests::signed_at))]
    pub(crate) fn signed(&self) -> Result<Minor, ReaderFault>
        ensures { reader_answer result ≡ signed_at (view self.now) }
    {
        match self {
            Word::Signed(_, value) => Ok(Minor(*value)),
            _ => Err(self.unreadable()),
        }
    }

    /// The number of the currency whose code the word is.
    #[tactic(auto, unfolding(crate::specs::Requests::currency_at))]
    pub(crate) fn currency(&self) -> Result<u64, ReaderFault>
        ensures { reader_answer result ≡ currency_at (view self.now) }
    {
        let Word::Code(_, code) = self else {
            return Err(self.unreadable());
        };
        let currency = Currency::from_code(*code).ok_or(self.unreadable())?;
        Ok(u64::from(currency.number()))
    }

    /// The account and the weight that the word is.
    #[tactic(auto, unfolding(crate::specs::Requests::share_at))]
    pub(crate) fn share(&self) -> Result<Share, ReaderFault>
        ensures { reader_answer result ≡ share_at (view self.now) }
    {
        match self {
            Word::Pair(_, account, weight) => Ok(Share {
                account: u64::from(*account),
                weight: u64::from(*weight),
            }),
            _ => Err(self.unreadable()),
        }
    }
}

/// The word that a part of a line is.
fn read_word(span: Span<'_>) -> Word<'_>
    ensures { view result ≡ record { column = span.entry.column; text = span.entry.text.now; kind = kind_of span.entry.text.now } }
{
    if let Some(value) = number(span.text) {
        Word::Number(span, value)
    } else if let Some(value) = signed(span.text) {
        Word::Signed(span, value)
    } else if let Some(code) = code(span.text) {
        Word::Code(span, code)
    } else if let Some((first, second)) = pair(span.text) {
        Word::Pair(span, first, second)
    } else {
        Word::Name(span)
    }
}

/// Puts the words of a line into an empty list; `None` if the line has more than a request can have. The list is the
/// caller's, since to hand back one of that size costs more than to fill it.
pub(crate) fn split_words<'a>(
    line: &'a [u8],
    words: &mut ArrayVec<Word<'a>, MOST_WORDS>,
) -> Option<()>
    requires { words.old.items ≡ [] }
    ensures { MatchOption result (most_words < length (words_of line.now)) (λ _. map view words.new.items ≡ words_in line.now) }
{
    let mut rest = line;
    let mut column = 1;
    loop {
        let gap = count_leading(rest, b' ');
        let from = &rest[gap..];
        let len = count_before(from, b' ');
        if len == 0 {
            return Some(());
        }
        if words.is_full() {
            return None;
        }
        let text = &from[..len];
        column += gap;
        words.push(read_word(Span { column, text }));
        column += len;
        rest = &from[len..];
    }
}
