//! Conversions that were reckoned by hand, compared with what the engine gives, and the refusals of conversions.
use crate::wording::{BEF, DEM, EUR, FRF, ITL, LUF, Request, show_request};
use money::{Conversion, Mills, Minor, Parts, convert};
use std::io;

/// A conversion and what it must give.
#[derive(Clone, Copy)]
struct Reckoned {
    request: Request,
    expected: Conversion,
}

const RECKONED: [Reckoned; 6] = [
    Reckoned {
        request: Request {
            from: DEM,
            to: EUR,
            amount: Minor(10_000),
        },
        expected: Conversion::IntoEuro {
            booked: Minor(5113),
            euro: Parts(-158_790),
        },
    },
    Reckoned {
        request: Request {
            from: EUR,
            to: DEM,
            amount: Minor(150_000),
        },
        expected: Conversion::FromEuro {
            booked: Minor(293_375),
            national: Parts(-500_000),
        },
    },
    Reckoned {
        request: Request {
            from: ITL,
            to: EUR,
            amount: Minor(9),
        },
        expected: Conversion::IntoEuro {
            booked: Minor(0),
            euro: Parts(900_000),
        },
    },
    Reckoned {
        request: Request {
            from: ITL,
            to: EUR,
            amount: Minor(10),
        },
        expected: Conversion::IntoEuro {
            booked: Minor(1),
            euro: Parts(-936_270),
        },
    },
    Reckoned {
        request: Request {
            from: DEM,
            to: FRF,
            amount: Minor(10_000),
        },
        expected: Conversion::Between {
            mills: Mills(51_129),
            euro: Parts(36_793),
            booked: Minor(33_538),
            national: Parts(425_453),
        },
    },
    Reckoned {
        request: Request {
            from: BEF,
            to: LUF,
            amount: Minor(1000),
        },
        expected: Conversion::Between {
            mills: Mills(24_789),
            euro: Parts(142_189),
            booked: Minor(1000),
            national: Parts(-142_189),
        },
    },
];

/// Requests that must be refused: equal currencies, nothing, too much, and too much to book.
const REFUSED: [Request; 4] = [
    Request {
        from: DEM,
        to: DEM,
        amount: Minor(10_000),
    },
    Request {
        from: DEM,
        to: EUR,
        amount: Minor(0),
    },
    Request {
        from: ITL,
        to: EUR,
        amount: Minor(100_000_000_000),
    },
    Request {
        from: EUR,
        to: DEM,
        amount: Minor(99_999_999_999),
    },
];

/// Whether the engine gives what was reckoned by hand.
fn agrees(reckoned: Reckoned) -> bool {
    let Request { from, to, amount } = reckoned.request;
    match convert(from, to, amount) {
        Ok(conversion) => conversion == reckoned.expected,
        Err(_) => false,
    }
}

/// Prints each reckoned conversion, and how many agreed.
pub(crate) fn show(rt: &HostRuntime) -> io::Result<()> {
    println!(rt; "Conversions reckoned by hand")?;
    let mut agreed: u32 = 0;
    for reckoned in RECKONED {
        show_request(rt, reckoned.request)?;
        if agrees(reckoned) {
            agreed = agreed.saturating_add(1);
        } else {
            println!(rt; "    DIFFERS")?;
        }
    }
    println!(rt; "{agreed} of {} reckoned conversions agree", RECKONED.len())
}

/// Prints the refusals of conversions.
pub(crate) fn show_refused(rt: &HostRuntime) -> io::Result<()> {
    println!(rt; "Refused conversions")?;
    for request in REFUSED {
        show_request(rt, request)?;
    }
    Ok(())
}
