//! The transcript of an input, handed out to the caller's list.
ghost use Rattle.std.specs.Prelude.{◌≡◌, length, take, MatchResult};
ghost use Rattle.apportion.specs.Splits.{over};
ghost use Rattle.apportion.specs.Ties.{Lawful, by_place};
ghost use Rattle.book.specs.View.{state_of};
ghost use Rattle.requests.specs.Requests.{ruled};
ghost use Rattle.runner.specs.Transcript.{transcript_of};
ghost use Rattle.exports.specs.Exports.{HandsOut};

use apportion::SmallerPlace;
use book::Book;
use ledger::Ledger;
use runner::run;
use std::alloc::{AllocError, Global};

/// Writes as much of a text as the list takes over the list's front.
fn write_front(text: &[u8], list: &mut [u8])
    ensures { list.new ≡ over (take (length list.old) text.now) list.old }
{
    let count = text.len().min(list.len());
    list[0..count].copy_from_slice(&text[0..count]);
}

/// Runs an input on a book, hands the transcript out, and answers its length.
pub(crate) fn hand_out<L: Ledger>(
    heap: Global,
    book: &mut Book<L>,
    input: &[u8],
    output: &mut [u8],
) -> Result<u64, AllocError>
    ensures { (law : Lawful by_place) → MatchResult result (λ n. HandsOut n (transcript_of (ruled law) (state_of L.Balances book.old) input.now) output.old output.new) (λ _. output.new ≡ output.old) }
{
    let mut transcript = String::new(heap);
    run(book, &SmallerPlace, input, &mut transcript)?;
    write_front(transcript.as_bytes(), output);
    Ok(transcript.len() as u64)
}
