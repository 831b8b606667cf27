//! The docket's records. The docket lists the slips that a book has given and whose residues no account has taken yet.
use money::{Currency, Parts};

/// Where the slip of a record is.
#[derive(Clone, Copy, Default)]
pub enum Standing {
    /// Out on a slip, which its holder may carry or park.
    #[default]
    Out,
    /// Parked: the slip has ended, and the number may be taken up again.
    Parked,
}

/// What the docket keeps of a conversion: the number of its slip, its currencies, and both residues, 0 where absent, as an
/// audit has them.
#[derive(Clone, Copy, Default)]
pub struct Record {
    pub number: u32,
    pub from: Currency,
    pub to: Currency,
    pub euro: Parts,
    pub national: Parts,
    pub standing: Standing,
}
