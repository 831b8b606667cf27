//! The entries of the book's calls, leg by leg.
#![tactic(auto)]

mod account;
mod carry;
mod conversion;
mod draft;
mod laws;
mod post;
mod record;
mod split;
mod sweep;

pub use account::{DOCKET_ACCOUNT, EXCHANGE_ACCOUNT};
pub use carry::carry_entry;
pub use conversion::conversion_entry;
pub use laws::calls_make_entries;
pub use post::{LEAST_LEGS, post_entry};
pub use record::record_of;
pub use split::split_entry;
pub use sweep::{MOST_SWEPT, sweep_entry, sweepable};
