//! Rounding to the nearest whole number.
ghost use Rattle.std.specs.Prelude.{◌≡◌, ℕ, ◌+◌, ◌^◌, ◌<◌};
ghost use Rattle.money.specs.Rounding.{half_up};
ghost use Rattle.money.specs.Conversions.{rounded_to};

use crate::quantity::Parts;

/// Half-up of `x ÷ y`: the nearest whole number, the upper one at exactly half.
pub(crate) fn half_up(x: u64, y: u64) -> u64
    requires { 0 < y }
    ensures { result ≡ half_up x y }
{
    let whole = x / y;
    let rest = x % y;
    if rest >= y - rest { whole + 1 } else { whole }
}

/// An exact number of parts as whole units, and the residue: what the exact number has above the whole units.
#[derive(Clone, Copy)]
pub(crate) struct Rounded {
    pub whole: u64,
    pub residue: Parts,
}

impl Rounded {
    /// Rounds `exact` parts to whole units of `unit` parts each.
    pub(crate) fn nearest(exact: u64, unit: u64) -> Rounded
        requires some { 0 < unit }
        requires fits { exact + unit < 2 ^ 63 }
        ensures value { result ≡ rounded_to exact unit }
        ensures small { result.whole < 2 ^ 63 }
    {
        let whole = half_up(exact, unit);
        let residue = Parts(exact as i64 - (unit * whole) as i64);
        Rounded { whole, residue }
    }
}
