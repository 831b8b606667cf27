//! Runs the lines of its standard input on a book over a journal, and writes the transcript.
#![tactic(auto)]

use apportion::SmallerPlace;
use ledger::Leg;
use programs::{RECORDS, open_journal};
use runner::run_streams;

fn main(rt: HostRuntime) -> anyhow::Result<()> {
    let mut records = [Leg::default(); RECORDS];
    let mut book = open_journal(&mut records);
    run_streams(
        rt.alloc(),
        &mut book,
        &SmallerPlace,
        rt.stdin(),
        &mut rt.stdout(),
    )?;
    Ok(())
}
