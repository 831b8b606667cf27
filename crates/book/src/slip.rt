//! Slips: what a book gives for the residues of a conversion, to be carried to an account or parked.
ghost use Rattle.std.specs.Prelude.{◌≡◌, IfErr, Ok};
ghost use Rattle.model.specs.Calls.{carry, park};
ghost use Rattle.model.specs.Conservation.{StillConserved};
ghost use Rattle.model.specs.Step.{step};
ghost use Rattle.book.specs.View.{state_of, slip_of, carry_answer};

use crate::book::Book;
use ledger::Ledger;
use register::Fault;

/// The right to the residues of one conversion: the mark of the book that gave it, and its number there. It is
/// neither copied nor let go, but ends by being carried or parked.
pub struct Slip {
    mark: u32,
    number: u32,
}

impl Slip {
    /// The slip of that mark and number.
    pub(crate) fn new(mark: u32, number: u32) -> Slip
        ensures { result ≡ slip_of mark number }
    {
        Slip { mark, number }
    }

    /// The mark of the book that gave the slip.
    pub fn mark(&self) -> u32
        ensures { result ≡ self.now.mark }
    {
        self.mark
    }

    /// The number of the slip in its book.
    pub fn number(&self) -> u32
        ensures { result ≡ self.now.number }
    {
        self.number
    }

    /// Ends the slip. Its number is parked and answered; 0, and nothing moves, if the slip is not the book's. That a parking
    /// always answers a number is a rule of the project.
    pub fn park<L: Ledger>(self, book: &mut Book<L>) -> u32
        ensures step { (Ok result, state_of L.Balances book.new) ≡ step (state_of L.Balances book.old) (park self.mark self.number) }
        ensures law { StillConserved (state_of L.Balances book.old) (park self.mark self.number) (Ok result) (state_of L.Balances book.new) }
    {
        let parked = book.park_slip(&self);
        let Slip { mark: _, number: _ } = self;
        parked
    }

    /// Carries the residues to a named account and ends the slip; a refusal hands it back.
    pub fn carry<L: Ledger>(self, book: &mut Book<L>, account: u64) -> Result<(), (Slip, Fault)>
        ensures step { (carry_answer result, state_of L.Balances book.new) ≡ step (state_of L.Balances book.old) (carry self.mark self.number account) }
        ensures law { StillConserved (state_of L.Balances book.old) (carry self.mark self.number account) (carry_answer result) (state_of L.Balances book.new) }
        ensures back { IfErr result (λ b. b.0 ≡ self) }
    {
        match book.carry_slip(&self, account) {
            Ok(()) => {
                let Slip { mark: _, number: _ } = self;
                Ok(())
            }
            Err(fault) => Err((self, fault)),
        }
    }
}
