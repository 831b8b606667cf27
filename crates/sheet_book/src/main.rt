//! Runs the lines of its standard input on a book over a sheet, and writes the transcript.
#![tactic(auto)]

use apportion::SmallerPlace;
use programs::open_sheet;
use runner::run_streams;
use sheet::SHEET_CELLS;

fn main(rt: HostRuntime) -> anyhow::Result<()> {
    let mut cells = [0; SHEET_CELLS];
    let mut book = open_sheet(&mut cells);
    run_streams(
        rt.alloc(),
        &mut book,
        &SmallerPlace,
        rt.stdin(),
        &mut rt.stdout(),
    )?;
    Ok(())
}
