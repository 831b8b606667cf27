//! The theorem of this crate, on the contract of a function that does nothing.
ghost use Rattle.postings.specs.Laws.{CallsMakeEntries};

/// The legs of every call that a book accepts make an entry, so none of these entries is empty for want of one.
pub fn calls_make_entries()
    ensures { CallsMakeEntries }
{}
