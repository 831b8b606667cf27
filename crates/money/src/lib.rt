//! The arithmetic of money: quantities, currencies, rounding and conversions.
#![tactic(auto)]

mod amount;
mod conversion;
mod currency;
mod laws;
mod quantity;
mod rounding;

pub use amount::MOST_AMOUNT;
pub use conversion::{Conversion, Route, convert};
pub use currency::{Currency, National};
pub use laws::{half_up_is_nearest, names_are_unique, parts_follow_rates, reckoned_conversions};
pub use quantity::{Mills, Minor, Parts};
