//! The answers to the lines of an input, in order.
ghost use Rattle.std.specs.Prelude.{◌≡◌, ◌≤◌, ◌++◌, length, None, Ok, string_bytes, MatchResult, OnOk};
ghost use Rattle.std.specs.Option.{option_map};
ghost use Rattle.register.specs.Register.{answer as refusals_of};
ghost use Rattle.apportion.specs.Ties.{Lawful};
ghost use Rattle.reader.specs.Requests.{given_by};
ghost use Rattle.book.specs.View.{state_of};
ghost use Rattle.requests.specs.Requests.{ruled, numbers};
ghost use Rattle.transcript.specs.Text.{answer_text};
ghost use Rattle.runner.specs.Answers.{said_text, worded_text, answer_line, most_input};
ghost use Rattle.runner.specs.Progress.{AllDone, SomeDone};

use crate::text::append;
use apportion::TieRule;
use book::Book;
use ledger::Ledger;
use reader::Lines;
use register::Fault;
use requests::{Reply, perform_line};
use std::alloc::AllocError;
use transcript::{Amounts, Answer, Line};

/// A reply in the words of a transcript.
// two enums: a reply owns its portions, an answer borrows them and may be a refusal
fn replied(reply: &Reply) -> Answer<'_>
    ensures { answer_text result ≡ said_text (Ok (numbers reply.now)) }
{
    match reply {
        Reply::Done => Answer::Done,
        Reply::Converted { booked, number } => Answer::Converted {
            booked: *booked,
            number: *number,
        },
        Reply::Split(portions) => Answer::Split(Amounts {
            amounts: portions.as_slice(),
        }),
        Reply::Swept(moved) => Answer::Swept(*moved),
    }
}

/// What came of a line, in the words of a transcript. There is nothing to say of a line without words.
fn worded(outcome: &Result<Option<Reply>, Fault>) -> Option<Answer<'_>>
    ensures { option_map answer_text result ≡ worded_text (given_by (option_map numbers) (refusals_of outcome.now)) }
{
    match outcome {
        Ok(None) => None,
        Ok(Some(reply)) => Some(replied(reply)),
        Err(fault) => Some(Answer::Refused(*fault)),
    }
}

/// Writes the answer to the line of that number. Nothing is written of a line without words, so that cannot fail.
pub(crate) fn write_answer(
    transcript: &mut String,
    number: u64,
    outcome: Result<Option<Reply>, Fault>,
) -> Result<(), AllocError>
    ensures text { OnOk result (string_bytes transcript.new ≡ string_bytes transcript.old ++ answer_line number (given_by (option_map numbers) (refusals_of outcome))) }
    ensures silent { worded_text (given_by (option_map numbers) (refusals_of outcome)) ≡ None → result ≡ Ok tt }
{
    let Some(answer) = worded(&outcome) else {
        return Ok(());
    };
    append(transcript, Line { number, answer })
}

/// Carries out the lines of an input one after another, and writes the answers. Without lines, that cannot fail.
pub(crate) fn answer_lines<L: Ledger, R: TieRule>(
    book: &mut Book<L>,
    rule: &R,
    input: &[u8],
    transcript: &mut String,
) -> Result<(), AllocError>
    requires { length input.now ≤ most_input }
    ensures done { (law : Lawful (R.TieRule.tie rule.now)) → MatchResult result (λ _. AllDone (ruled law) (state_of L.Balances book.old) (state_of L.Balances book.new) input.now (string_bytes transcript.old) (string_bytes transcript.new)) (λ _. SomeDone (ruled law) (state_of L.Balances book.old) (state_of L.Balances book.new) input.now) }
    ensures empty { length input.now ≡ 0 → result ≡ Ok tt }
{
    for (number, line) in Lines::of(input) {
        let outcome = perform_line(book, rule, line);
        write_answer(transcript, number, outcome)?;
    }
    Ok(())
}
