//! What can be done with a docket. Numbers are as a line gives them, so that any may be asked for.
ghost use Rattle.std.specs.Prelude.{◌≡◌, ◌==◌, [], length, position, IfSome, IfErr, is_ok, nat_le, unsigned_abs};
ghost use Rattle.money.specs.Conversions.{most_amount};
ghost use Rattle.model.specs.Docket.{found, without, restated};
ghost use Rattle.docket.specs.Records.{Bounded, residues_bounded, appended};
ghost use Rattle.docket.specs.Held.{records_of};

use super::Docket;
use arrayvec::ArrayVec;
use model::{Record, Standing};
use money::{MOST_AMOUNT, Parts};

/// Whether parts are at most T either way.
fn is_bounded(parts: Parts) -> bool
    ensures { result ≡ nat_le (unsigned_abs parts.0) most_amount }
{
    (-MOST_AMOUNT..=MOST_AMOUNT).contains(&parts.0)
}

/// Whether both residues of a record are at most T either way.
fn residues_bounded(record: Record) -> bool
    ensures { result ≡ residues_bounded «record» }
{
    is_bounded(record.euro) && is_bounded(record.national)
}

impl Docket {
    /// The docket without records.
    pub fn new() -> Docket
        ensures { records_of result ≡ [] }
    {
        Docket {
            records: ArrayVec::new(),
        }
    }

    /// How many records there are.
    pub fn len(&self) -> usize
        ensures { result ≡ length (records_of self.now) }
    {
        self.records.len()
    }

    /// The records, in the order of issue.
    pub fn records(&self) -> &[Record]
        ensures { result.now ≡ records_of self.now }
    {
        self.records.as_slice()
    }

    /// The place of the record of that number.
    fn place_of(&self, number: u64) -> Option<usize>
        ensures { result ≡ position (λ x. x.number == number) (records_of self.now) }
    {
        self.records()
            .iter()
            .position(|x| x.number as u64 == number)
    }

    /// The record of that number.
    pub fn find(&self, number: u64) -> Option<Record>
        ensures value { result ≡ found number (records_of self.now) }
        ensures numbered { IfSome result (λ x. x.number ≡ number) }
        ensures bounded { IfSome result Bounded }
    {
        self.records()
            .iter()
            .find(|x| x.number as u64 == number)
            .copied()
    }

    /// Adds a record after the others; hands it back, and changes nothing, if the docket is full or a residue of the
    /// record is more than T either way.
    pub fn append(&mut self, record: Record) -> Result<(), Record>
        ensures value { (is_ok result, records_of self.new) ≡ appended (records_of self.old) «record» }
        ensures returned { IfErr result (λ x. x ≡ «record») }
    {
        if self.records.is_full() || !residues_bounded(record) {
            return Err(record);
        }
        self.records.push(record);
        Ok(())
    }

    /// Puts the record of that number into another standing; nothing changes if there is none.
    pub fn restate(&mut self, number: u64, standing: Standing)
        ensures { records_of self.new ≡ restated number standing (records_of self.old) }
    {
        // by place: of a list that is written through `iter_mut().find(..)` a proof knows nothing
        if let Some(i) = self.place_of(number) {
            self.records[i].standing = standing;
        }
    }

    /// Strikes the record of that number; those after it move up, so the order of issue stays.
    pub fn strike(&mut self, number: u64)
        ensures { records_of self.new ≡ without number (records_of self.old) }
    {
        if let Some(i) = self.place_of(number) {
            self.records.remove(i);
        }
    }
}
