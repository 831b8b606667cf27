//! Three quantities that no sum joins: nothing turns one into another but a conversion.

/// Minor units of a currency: cents, pfennigs, lire. Plus is debit.
#[derive(Clone, Copy, Default, PartialEq, Eq)]
pub struct Minor(pub i64);

/// Mills: thousandths of a euro, the middle amount between two national currencies.
#[derive(Clone, Copy, Default, PartialEq, Eq)]
pub struct Mills(pub u64);

/// Parts of a minor unit, as a fraction column counts them. They may be owed.
#[derive(Clone, Copy, Default, PartialEq, Eq)]
pub struct Parts(pub i64);
