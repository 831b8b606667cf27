//! The limits of a ledger that stands on no other.
ghost use Rattle.std.specs.Prelude.{◌≡◌, cond, pos};
ghost use Rattle.ledger.specs.Limits.{listed, floor_of, ceiling_of};

/// How many accounts there are.
pub const ACCOUNTS: u64 = 128;

/// How many columns there are.
pub const COLUMNS: u64 = 34;

/// How many cells an account has: one for each column.
pub const ROW_CELLS: usize = COLUMNS as usize;

/// How far a cell may go from zero, either way.
pub const MOST_HELD: i64 = 1_000_000_000_000_000;

/// Whether there is a cell of that account and column.
pub fn is_cell(account: u64, column: u64) -> bool
    ensures { result ≡ listed account column }
{
    account < ACCOUNTS && column < COLUMNS
}

/// What a cell may hold at an end of its range; 0 outside the accounts and columns.
fn limit(account: u64, column: u64, held: i64) -> i64
    ensures { result ≡ cond (listed account column) held (pos 0) }
{
    if is_cell(account, column) { held } else { 0 }
}

/// The least that a cell may hold; 0 outside the accounts and columns.
pub fn floor_of(account: u64, column: u64) -> i64
    ensures { result ≡ floor_of account column }
{
    limit(account, column, -MOST_HELD)
}

/// The most that a cell may hold; 0 outside the accounts and columns.
pub fn ceiling_of(account: u64, column: u64) -> i64
    ensures { result ≡ ceiling_of account column }
{
    limit(account, column, MOST_HELD)
}
