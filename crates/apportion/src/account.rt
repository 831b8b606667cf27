//! The accounts that a call may name.
ghost use Rattle.std.specs.Prelude.{◌≡◌};
ghost use Rattle.apportion.specs.Accounts.{named};

const FIRST_NAMED: u64 = 2;

const LAST_NAMED: u64 = 127;

/// Whether an account is a named one: 0 and 1 are the book's own, and there is none above 127.
pub fn is_named(account: u64) -> bool
    ensures { result ≡ named account }
{
    (FIRST_NAMED..=LAST_NAMED).contains(&account)
}
