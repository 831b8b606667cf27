//! What a share's portion misses of its exact part.

/// Counts 1 ÷ W of a minor unit, where W is the sum of a split's weights. A fraction may be owed.
#[derive(Clone, Copy, Default)]
pub struct Fraction(pub i64);
