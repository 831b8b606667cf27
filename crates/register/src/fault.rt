//! A fault of each part, with its place, and what the register says of it.
ghost use Rattle.std.specs.Prelude.{◌≡◌, ℕ, Some};
ghost use Rattle.register.specs.declared.fault.Fault.TheVariants.{Reader, Book, Ledger};
ghost use Rattle.register.specs.Register.{registered, part_text, refusal_text};

use crate::cause::{BookCause, LedgerCause, ReaderCause};
use std::fmt;

/// Why a part refuses, and where. A place of 0 is what the register has, and a transcript writes, where there is none.
#[derive(Clone, Copy)]
pub struct Placed<C> {
    pub cause: C,
    pub place: usize,
}

/// A refusal of the reader. The place is a column of the line in bytes, from 1, or 0.
pub type ReaderFault = Placed<ReaderCause>;

/// A refusal of the book. The place is a leg or a share, from 1, a currency's number, or 0.
pub type BookFault = Placed<BookCause>;

// not `Placed`, whose faults have no height
/// A refusal of a ledger. The place is a leg, from 1, or 0; the height says how many ledgers stand below
/// the one that refuses.
#[derive(Clone, Copy)]
pub struct LedgerFault {
    pub cause: LedgerCause,
    pub place: usize,
    pub height: u8,
}

/// A refusal of any part.
#[derive(Clone, Copy)]
pub enum Fault {
    Reader(ReaderFault),
    Book(BookFault),
    Ledger(LedgerFault),
}

/// The part of the engine that refuses.
#[derive(Clone, Copy)]
pub enum Part {
    Reader,
    Book,
    Ledger,
}

impl<C> Placed<C> {
    /// A refusal at a place.
    pub fn at(cause: C, place: usize) -> Placed<C>
        ensures { result ≡ record { cause = cause; place = place } }
    {
        Placed { cause, place }
    }
}

/// A refusal that no leg, share, currency or column is the place of.
impl<C> From<C> for Placed<C> {
    ghost from_gives = { λ cause r. r ≡ record { cause = cause; place = 0 } };

    fn from(cause: C) -> Placed<C> {
        Placed::at(cause, 0)
    }
}

/// A refusal of a ledger that no leg is the place of, and below which no ledger stands.
impl From<LedgerCause> for LedgerFault {
    ghost from_gives = { λ cause r. r ≡ record { cause = cause; place = 0; height = 0 } };

    fn from(cause: LedgerCause) -> LedgerFault {
        LedgerFault {
            cause,
            place: 0,
            height: 0,
        }
    }
}

impl From<ReaderFault> for Fault {
    ghost from_gives = { λ f r. r ≡ Reader f };

    fn from(fault: ReaderFault) -> Fault {
        Fault::Reader(fault)
    }
}

impl From<BookFault> for Fault {
    ghost from_gives = { λ f r. r ≡ Book f };

    fn from(fault: BookFault) -> Fault {
        Fault::Book(fault)
    }
}

/// A ledger's fault goes up whole: cause, place and height.
impl From<LedgerFault> for Fault {
    ghost from_gives = { λ f r. r ≡ Ledger f };

    fn from(fault: LedgerFault) -> Fault {
        Fault::Ledger(fault)
    }
}

impl Fault {
    /// The part that refuses.
    pub fn part(self) -> Part
        ensures { result ≡ (registered self).part }
    {
        match self {
            Fault::Reader(_) => Part::Reader,
            Fault::Book(_) => Part::Book,
            Fault::Ledger(_) => Part::Ledger,
        }
    }

    /// The number of the refusal in the register, 1 to 22.
    pub fn number(self) -> u8
        ensures { result ≡ (registered self).number }
    {
        match self {
            Fault::Reader(fault) => fault.cause as u8,
            Fault::Book(fault) => fault.cause as u8,
            Fault::Ledger(fault) => fault.cause as u8,
        }
    }

    /// Where the refusal arose: a leg, a share or a column of the line, from 1, a currency's number, or 0.
    pub fn place(self) -> usize
        ensures { result ≡ (registered self).place }
    {
        match self {
            Fault::Reader(fault) => fault.place,
            Fault::Book(fault) => fault.place,
            Fault::Ledger(fault) => fault.place,
        }
    }

    /// The height of a ledger's refusal; no other has one.
    pub fn height(self) -> Option<u8>
        ensures { result ≡ (registered self).height }
    {
        match self {
            Fault::Reader(_) | Fault::Book(_) => None,
            Fault::Ledger(fault) => Some(fault.height),
        }
    }
}

/// The part's letter: R, B or L.
impl fmt::Display for Part {
    ghost output = { λ p. Some (part_text p) };

    fn fmt<W: fmt::Write>(&self, f: &mut fmt::Formatter<W>) -> fmt::Result {
        match self {
            Part::Reader => write!(f, "R"),
            Part::Book => write!(f, "B"),
            Part::Ledger => write!(f, "L"),
        }
    }
}

/// The part's letter, the number, the place and, of a ledger, the height.
impl fmt::Display for Fault {
    ghost output = { λ x. Some (refusal_text (registered x)) };

    fn fmt<W: fmt::Write>(&self, f: &mut fmt::Formatter<W>) -> fmt::Result {
        let part = self.part();
        let number = self.number();
        let place = self.place();
        match self.height() {
            None => write!(f, "{part} {number} {place}"),
            Some(height) => write!(f, "{part} {number} {place} {height}"),
        }
    }
}
