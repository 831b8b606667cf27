//! The theorems of this crate that no other function bears.
ghost use Rattle.ledger.specs.Columns.{ColumnsNumbered};

/// Numbers and columns go together one to one.
pub fn columns_are_numbered()
    ensures { ColumnsNumbered }
{}
