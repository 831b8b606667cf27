//! The theorem of this crate, on the contract of a function that does nothing.
ghost use Rattle.requests.specs.Laws.{NoSlipStaysOut};

/// Whatever line is carried out, no slip stays out: each number that was given is parked or carried.
pub fn no_slip_stays_out()
    ensures { NoSlipStaysOut }
{}
