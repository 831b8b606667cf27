//! A whole input from a stream, and its transcript to another.
ghost use Rattle.std.specs.Prelude.{◌≡◌, List, ℕ, IfSome, OnOk};
ghost use Rattle.std.specs.Io.KnownBytes.{Appends};
ghost use Rattle.apportion.specs.Ties.{Lawful};
ghost use Rattle.model.specs.History.{after};
ghost use Rattle.book.specs.View.{state_of};
ghost use Rattle.requests.specs.Requests.{ruled};
ghost use Rattle.runner.specs.Answers.{input_calls};
ghost use Rattle.runner.specs.Progress.{SomeDone};
ghost use Rattle.runner.specs.Transcript.{transcript_of};

use crate::whole::{MOST_INPUT, run};
use apportion::TieRule;
use book::Book;
use ledger::Ledger;
use std::alloc::Global;
use std::io::{self, ErrorKind, Read, Write};

/// Reads an input, carries out its lines on a book, and writes the transcript. Whatever fails, a read, memory or a write,
/// some first lines of the input are done, and the law holds of them.
pub fn run_streams<L: Ledger, R: TieRule, I: Read + Drop, O: Write>(
    alloc: Global,
    book: &mut Book<L>,
    rule: &R,
    input: I,
    output: &mut O,
) -> io::Result<()>
    ensures transcript { (law : Lawful (R.TieRule.tie rule.now)) → OnOk result (IfSome (I.Read.remaining input) (λ bytes. Appends (O.Write.contents output.old) (O.Write.contents output.new) (transcript_of (ruled law) (state_of L.Balances book.old) bytes))) }
    ensures state { (law : Lawful (R.TieRule.tie rule.now)) → OnOk result (IfSome (I.Read.remaining input) (λ bytes. state_of L.Balances book.new ≡ after (state_of L.Balances book.old) (input_calls (ruled law) (state_of L.Balances book.old) bytes))) }
    ensures done { (law : Lawful (R.TieRule.tie rule.now)) → IfSome (I.Read.remaining input) (λ bytes. SomeDone (ruled law) (state_of L.Balances book.old) (state_of L.Balances book.new) bytes) }
    ensures law { (law : Lawful (R.TieRule.tie rule.now)) → (bytes : List ℕ) × SomeDone (ruled law) (state_of L.Balances book.old) (state_of L.Balances book.new) bytes }
{
    let mut bytes = Vec::new(alloc);
    // one byte more than is taken shows that an input is too long
    input.take(MOST_INPUT as u64 + 1).read_to_end(&mut bytes)?;
    let mut transcript = String::new(alloc);
    match run(book, rule, &bytes, &mut transcript) {
        Ok(()) => output.write_all(transcript.as_bytes()),
        // by `?` the error would read `out of memory`, as a read's does; this has the words of `AllocError`
        Err(_) => Err(io::Error::new(ErrorKind::OutOfMemory, "memory allocation failed")),
    }
}
