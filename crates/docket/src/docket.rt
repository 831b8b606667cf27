//! At most 64 records, in the order of issue.
ghost use Rattle.std.specs.Prelude.{◌≤◌, length, All};
ghost use Rattle.model.specs.Docket.{most_records};
ghost use Rattle.docket.specs.Records.{Bounded};

use arrayvec::ArrayVec;
use model::Record;

mod operations;

/// The most records that a docket may have.
pub const MOST_RECORDS: usize = 64;

/// Records in the order of issue.
#[derive(Drop)]
pub struct Docket {
    records: ArrayVec<Record, MOST_RECORDS>,
    ghost within: { length records.items ≤ most_records },
    ghost bounded: { All Bounded records.items },
}
