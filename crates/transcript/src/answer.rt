//! The answer to a line of the input.
ghost use Rattle.std.specs.Prelude.{Some};
ghost use Rattle.transcript.specs.Text.{amounts_text, answer_text, line_text};

use money::Minor;
use register::Fault;
use std::fmt;

/// Amounts in a row, each after a space.
#[derive(Clone, Copy)]
pub struct Amounts<'a> {
    pub amounts: &'a [Minor],
}

impl fmt::Display for Amounts<'_> {
    ghost output = { λ x. Some (amounts_text x.amounts.now) };

    fn fmt<W: fmt::Write>(&self, f: &mut fmt::Formatter<W>) -> fmt::Result {
        for amount in self.amounts {
            write!(f, " {}", amount.0)?;
        }
        Ok(())
    }
}

/// What came of a line: nothing more to say, what a conversion booked and its slip's number, the portions of a
/// split, what a sweep moved, or a refusal.
#[derive(Clone, Copy)]
pub enum Answer<'a> {
    Done,
    Converted { booked: Minor, number: u32 },
    Split(Amounts<'a>),
    Swept(Minor),
    Refused(Fault),
}

impl fmt::Display for Answer<'_> {
    ghost output = { λ x. Some (answer_text x) };

    fn fmt<W: fmt::Write>(&self, f: &mut fmt::Formatter<W>) -> fmt::Result {
        match self {
            Answer::Done => write!(f, "ok"),
            Answer::Converted { booked, number } => write!(f, "ok {} {number}", booked.0),
            Answer::Split(portions) => write!(f, "ok{portions}"),
            Answer::Swept(moved) => write!(f, "ok {}", moved.0),
            Answer::Refused(fault) => write!(f, "no {fault}"),
        }
    }
}

/// The number of a line of the input, from 1, and the answer to it.
#[derive(Clone, Copy)]
pub struct Line<'a> {
    pub number: u64,
    pub answer: Answer<'a>,
}

impl fmt::Display for Line<'_> {
    ghost output = { λ x. Some (line_text x) };

    fn fmt<W: fmt::Write>(&self, f: &mut fmt::Formatter<W>) -> fmt::Result {
        write!(f, "{} {}\n", self.number, self.answer)
    }
}
