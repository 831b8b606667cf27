//! The audit of a book: what its ledger and its docket hold.
ghost use Rattle.std.specs.Prelude.{◌≡◌, ◌*◌, ◌≤◌, ◌++◌, length, IfOk, string_bytes, OnOk};
ghost use Rattle.std.specs.List.{flat_map};
ghost use Rattle.ledger.specs.Limits.{accounts, columns};
ghost use Rattle.book.specs.View.{state_of};
ghost use Rattle.transcript.specs.Text.{cell_text, open_text};
ghost use Rattle.runner.specs.Audit.{cells_of, cells_below, audit_text};

use crate::text::append;
use book::Book;
use ledger::{ACCOUNTS, Ledger};
use model::{Audit, Record};
use std::alloc::AllocError;
use transcript::{Cell, End, Heading, Open};

// Book and transcript are both borrowed for the time of a run: a struct of both would be made anew at each step.

/// Writes the cells of an account that are not zero, by column, and answers how many.
fn write_account<L: Ledger>(
    book: &Book<L>,
    account: u64,
    transcript: &mut String,
) -> Result<u64, AllocError>
    ensures text { OnOk result (string_bytes transcript.new ≡ string_bytes transcript.old ++ flat_map cell_text (cells_of (state_of L.Balances book.now) account columns)) }
    ensures count { IfOk result (λ n. n ≡ length (cells_of (state_of L.Balances book.now) account columns)) }
    ensures bound { IfOk result (λ n. n ≤ columns) }
{
    let row = book.row(account);
    let mut cells = 0;
    for (column, amount) in row.iter().enumerate() {
        if *amount != 0 {
            let cell = Cell {
                account,
                column: column as u64,
                amount: *amount,
            };
            append(transcript, cell)?;
            // counts what was written, which may fail on the way
            cells += 1;
        }
    }
    Ok(cells)
}

/// Writes all cells that are not zero, by account and then by column, and answers how many.
fn write_cells<L: Ledger>(book: &Book<L>, transcript: &mut String) -> Result<u64, AllocError>
    ensures text { OnOk result (string_bytes transcript.new ≡ string_bytes transcript.old ++ flat_map cell_text (cells_below (state_of L.Balances book.now) accounts)) }
    ensures count { IfOk result (λ n. n ≡ length (cells_below (state_of L.Balances book.now) accounts)) }
{
    let mut cells = 0;
    for account in 0..ACCOUNTS {
        cells += write_account(book, account, transcript)?;
    }
    Ok(cells)
}

/// Writes the records of a docket, each once.
fn write_records(records: &[Record], transcript: &mut String) -> Result<(), AllocError>
    ensures { OnOk result (string_bytes transcript.new ≡ string_bytes transcript.old ++ flat_map open_text records.now) }
{
    for record in records {
        append(transcript, Open { record: *record })?;
    }
    Ok(())
}

/// Writes the audit of a book: heading, cells, docket records and their numbers.
pub fn write_audit<L: Ledger>(book: &Book<L>, transcript: &mut String) -> Result<(), AllocError>
    ensures { OnOk result (string_bytes transcript.new ≡ string_bytes transcript.old ++ audit_text (state_of L.Balances book.now)) }
{
    let Audit {
        kind,
        room,
        records,
    } = book.audit();
    append(transcript, Heading { kind, room })?;
    let cells = write_cells(book, transcript)?;
    write_records(book.records(), transcript)?;
    let end = End {
        cells,
        records: records as u64,
    };
    append(transcript, end)
}
