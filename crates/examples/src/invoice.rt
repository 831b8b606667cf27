//! An invoice of the spring of 1999, in three currencies, settled in euro and in francs.
use crate::wording::{DEM, EUR, FRF, ITL, PTE, Request, show_request};
use money::{Currency, Minor};
use std::io;

/// One line of the invoice: what was delivered, and its price in minor units of the supplier's currency.
#[derive(Clone, Copy)]
struct InvoiceLine {
    item: &'static str,
    currency: Currency,
    price: Minor,
}

const LINES: [InvoiceLine; 4] = [
    InvoiceLine {
        item: "Printing paper, Darmstadt",
        currency: DEM,
        price: Minor(10_000),
    },
    InvoiceLine {
        item: "Binding, Torino",
        currency: ITL,
        price: Minor(1_250_000),
    },
    InvoiceLine {
        item: "Revenue stamp, Torino",
        currency: ITL,
        price: Minor(9),
    },
    InvoiceLine {
        item: "Cork boards, Porto",
        currency: PTE,
        price: Minor(48_350),
    },
];

/// Settles each line in euro, and again in French francs.
pub(crate) fn show(rt: &HostRuntime) -> io::Result<()> {
    println!(rt; "An invoice in marks, lire and escudos")?;
    for line in LINES {
        let InvoiceLine {
            item,
            currency,
            price,
        } = line;
        println!(rt; "- {item}: {currency} {}", price.0)?;
        for to in [EUR, FRF] {
            show_request(
                rt,
                Request {
                    from: currency,
                    to,
                    amount: price,
                },
            )?;
        }
    }
    Ok(())
}
