//! The head of an audit.

/// The ledger's kind and room, and how many records stand on the docket.
#[derive(Clone, Copy)]
pub struct Audit {
    pub kind: char,
    pub room: u64,
    pub records: usize,
}
