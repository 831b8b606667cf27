//! A whole input, from the first line to the audit.
ghost use Rattle.std.specs.Prelude.{◌≡◌, ◌<◌, ◌++◌, length, string_bytes, OnErr, OnOk};
ghost use Rattle.apportion.specs.Ties.{Lawful};
ghost use Rattle.model.specs.Conservation.{ConservedThrough};
ghost use Rattle.model.specs.History.{after};
ghost use Rattle.book.specs.View.{state_of};
ghost use Rattle.requests.specs.Laws.{LeavesNoneOut};
ghost use Rattle.requests.specs.Requests.{ruled};
ghost use Rattle.runner.specs.Answers.{input_calls, most_input};
ghost use Rattle.runner.specs.Progress.{SomeDone};
ghost use Rattle.runner.specs.Transcript.{transcript_of};

use crate::answers::{answer_lines, write_answer};
use crate::audit::write_audit;
use apportion::TieRule;
use book::Book;
use ledger::Ledger;
use register::{ReaderCause, ReaderFault};
use std::alloc::AllocError;

/// The most bytes of an input.
pub const MOST_INPUT: usize = 65_536;

/// Carries out the lines of an input on a book and appends the transcript: the answer to every line that has words, in
/// order, and the audit. An input that is too long is refused as a whole and moves nothing. If memory runs out, some
/// first lines are done and the others not.
pub fn run<L: Ledger, R: TieRule>(
    book: &mut Book<L>,
    rule: &R,
    input: &[u8],
    transcript: &mut String,
) -> Result<(), AllocError>
    ensures transcript { (law : Lawful (R.TieRule.tie rule.now)) → OnOk result (string_bytes transcript.new ≡ string_bytes transcript.old ++ transcript_of (ruled law) (state_of L.Balances book.old) input.now) }
    ensures state { (law : Lawful (R.TieRule.tie rule.now)) → OnOk result (state_of L.Balances book.new ≡ after (state_of L.Balances book.old) (input_calls (ruled law) (state_of L.Balances book.old) input.now)) }
    ensures law { (law : Lawful (R.TieRule.tie rule.now)) → OnOk result (ConservedThrough (state_of L.Balances book.old) (input_calls (ruled law) (state_of L.Balances book.old) input.now) (state_of L.Balances book.new)) }
    ensures parked { (law : Lawful (R.TieRule.tie rule.now)) → LeavesNoneOut (state_of L.Balances book.old) (input_calls (ruled law) (state_of L.Balances book.old) input.now) }
    ensures unmoved { most_input < length input.now → state_of L.Balances book.new ≡ state_of L.Balances book.old }
    ensures memory { (law : Lawful (R.TieRule.tie rule.now)) → OnErr result (SomeDone (ruled law) (state_of L.Balances book.old) (state_of L.Balances book.new) input.now) }
{
    if input.len() > MOST_INPUT {
        let fault = ReaderFault::from(ReaderCause::InputTooLong);
        return write_answer(transcript, 0, Err(fault.into()));
    }
    answer_lines(book, rule, input, transcript)?;
    write_audit(book, transcript)
}
