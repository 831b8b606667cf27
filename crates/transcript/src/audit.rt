//! The lines of an audit.
ghost use Rattle.std.specs.Prelude.{Some};
ghost use Rattle.transcript.specs.Text.{heading_text, cell_text, open_text, end_text};

use model::{Record, Standing};
use std::fmt;

/// The heading: the ledger's kind and room.
#[derive(Clone, Copy)]
pub struct Heading {
    pub kind: char,
    pub room: u64,
}

impl fmt::Display for Heading {
    ghost output = { λ x. Some (heading_text x) };

    fn fmt<W: fmt::Write>(&self, f: &mut fmt::Formatter<W>) -> fmt::Result {
        write!(f, "audit {} {}\n", self.kind, self.room)
    }
}

/// A cell, and what it holds.
#[derive(Clone, Copy)]
pub struct Cell {
    pub account: u64,
    pub column: u64,
    pub amount: i64,
}

impl fmt::Display for Cell {
    ghost output = { λ x. Some (cell_text x) };

    fn fmt<W: fmt::Write>(&self, f: &mut fmt::Formatter<W>) -> fmt::Result {
        write!(f, "cell {} {} {}\n", self.account, self.column, self.amount)
    }
}

/// A record of the docket.
#[derive(Clone, Copy)]
pub struct Open {
    pub record: Record,
}

impl fmt::Display for Open {
    ghost output = { λ x. Some (open_text x.record) };

    fn fmt<W: fmt::Write>(&self, f: &mut fmt::Formatter<W>) -> fmt::Result {
        let number = self.record.number;
        let from = self.record.from.number();
        let to = self.record.to.number();
        let euro = self.record.euro.0;
        let national = self.record.national.0;
        // two texts: with the letter as a value of its own the proof of the line did not close
        match self.record.standing {
            Standing::Out => write!(f, "open {number} o {from} {to} {euro} {national}\n"),
            Standing::Parked => write!(f, "open {number} p {from} {to} {euro} {national}\n"),
        }
    }
}

/// The end: how many `cell` and `open` lines the audit has.
#[derive(Clone, Copy)]
pub struct End {
    pub cells: u64,
    pub records: u64,
}

impl fmt::Display for End {
    ghost output = { λ x. Some (end_text x) };

    fn fmt<W: fmt::Write>(&self, f: &mut fmt::Formatter<W>) -> fmt::Result {
        write!(f, "end {} {}\n", self.cells, self.records)
    }
}
