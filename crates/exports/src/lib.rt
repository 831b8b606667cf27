//! The engine for C and plain Rust to link: a conversion, rounds of calls on a book over a sheet, and the two programs'
//! transcripts. A slice crosses as a pointer and a length.
#![tactic(auto)]

ghost use Rattle.std.specs.Prelude.{◌≡◌};
ghost use Rattle.apportion.specs.Ties.{Lawful, by_place};
ghost use Rattle.model.specs.Calls.{cell};
ghost use Rattle.model.specs.Step.{asked};
ghost use Rattle.requests.specs.Requests.{ruled};
ghost use Rattle.runner.specs.Transcript.{transcript_of};
ghost use Rattle.exports.specs.Exports.{booked_or_refusal, converting_numbers, exchange_of, exchange_rounds, line_rounds, HandedOut};
ghost use Rattle.programs.specs.Books.{sheet_book, journal_book};

use crate::conversion::convert_numbers;
use crate::rounds::{convert_rounds, line_rounds};
use crate::text::hand_out;
use ledger::{Balances, Leg};
use model::Exchange;
use money::Minor;
use programs::{RECORDS, open_journal, open_sheet};
use register::Fault;
use sheet::SHEET_CELLS;
use std::alloc::Global;

mod conversion;
mod rounds;
mod text;

/// The account from which rounds of conversions take.
const FROM_ACCOUNT: u64 = 2;

/// The account to which they give what is booked, and the residues.
const TO_ACCOUNT: u64 = 3;

// The C interface: numbers for currencies, amounts and refusals, a 0 where there is no transcript, and one function for
// each ledger.

/// What a conversion between the currencies of two numbers books, or below zero the number of its refusal.
#[unsafe(no_mangle)]
pub extern "C" fn seutmilai_convert(source: u64, target: u64, amount: i64) -> i64
    ensures { result ≡ booked_or_refusal (converting_numbers source target amount) }
{
    match convert_numbers(source, target, Minor(amount)) {
        Ok(conversion) => conversion.booked().0,
        Err(fault) => -(Fault::from(fault).number() as i64),
    }
}

/// Opens a book on a sheet, converts the amount so many times from account 2 to account 3, carries the residues to
/// account 3 each time, and answers what account 3 then holds in a column.
#[unsafe(no_mangle)]
pub extern "C" fn seutmilai_convert_rounds(
    source: u64,
    target: u64,
    amount: i64,
    rounds: u64,
    column: u64,
) -> i64
    ensures { result ≡ asked (exchange_rounds sheet_book (exchange_of source target amount) rounds) (cell 3 column) }
{
    let mut cells = [0; SHEET_CELLS];
    let mut book = open_sheet(&mut cells);
    let exchange = Exchange {
        from: FROM_ACCOUNT,
        to: TO_ACCOUNT,
        source,
        target,
        amount: Minor(amount),
    };
    convert_rounds(&mut book, exchange, rounds);
    book.cell(TO_ACCOUNT, column)
}

/// Opens a book on a sheet, reads the line once, carries it out so many times, and answers what the cell then holds.
#[unsafe(no_mangle)]
pub extern "C" fn seutmilai_line_rounds(line: &[u8], rounds: u64, account: u64, column: u64) -> i64
    ensures { (law : Lawful by_place) → result ≡ asked (line_rounds (ruled law) sheet_book line.now rounds) (cell account column) }
{
    let mut cells = [0; SHEET_CELLS];
    let mut book = open_sheet(&mut cells);
    line_rounds(&mut book, line, rounds);
    book.cell(account, column)
}

/// The transcript of an input on a sheet of room 4,000,000. As much of it as the output takes is written there, and its
/// length answered; 0, and nothing written, if memory runs out.
#[unsafe(no_mangle)]
pub extern "C" fn seutmilai_sheet_transcript(heap: Global, input: &[u8], output: &mut [u8]) -> u64
    ensures { (law : Lawful by_place) → HandedOut result (transcript_of (ruled law) sheet_book input.now) output.old output.new }
{
    let mut cells = [0; SHEET_CELLS];
    let mut book = open_sheet(&mut cells);
    hand_out(heap, &mut book, input, output).unwrap_or(0)
}

/// The same on a journal of 4,096 records.
#[unsafe(no_mangle)]
pub extern "C" fn seutmilai_journal_transcript(heap: Global, input: &[u8], output: &mut [u8]) -> u64
    ensures { (law : Lawful by_place) → HandedOut result (transcript_of (ruled law) journal_book input.now) output.old output.new }
{
    let mut records = [Leg::default(); RECORDS];
    let mut book = open_journal(&mut records);
    hand_out(heap, &mut book, input, output).unwrap_or(0)
}
