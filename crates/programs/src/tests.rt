//! A run of each book, from a text to a text.
use crate::{RECORDS, open_journal, open_sheet};
use apportion::SmallerPlace;
use ledger::Leg;
use runner::run_streams;
use sheet::SHEET_CELLS;
use std::test::Fail;

/// 100 marks into euro, as a line has it, and the answer to it.
const LINE: &[u8] = b"conv 10 20 DEM EUR 10000\n";

const ANSWER: &[u8] = b"1 ok 5113 1\n";

#[test]
fn a_sheet_answers(rt: HostRuntime) -> Result<(), Fail> {
    let mut cells = [0; SHEET_CELLS];
    let mut book = open_sheet(&mut cells);
    let mut output = Vec::new(rt.alloc());
    run_streams(rt.alloc(), &mut book, &SmallerPlace, LINE, &mut output)?;
    assert!(rt; output.as_slice().starts_with(ANSWER));
    Ok(())
}

#[test]
fn a_journal_answers(rt: HostRuntime) -> Result<(), Fail> {
    let mut records = [Leg::default(); RECORDS];
    let mut book = open_journal(&mut records);
    let mut output = Vec::new(rt.alloc());
    run_streams(rt.alloc(), &mut book, &SmallerPlace, LINE, &mut output)?;
    assert!(rt; output.as_slice().starts_with(ANSWER));
    Ok(())
}
