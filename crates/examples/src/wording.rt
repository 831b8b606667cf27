//! How a conversion is put into words.
use money::{Conversion, Currency, Minor, National, convert};
use register::Fault;
use std::io;

/// A conversion as a voucher asks for it.
#[derive(Clone, Copy)]
pub(crate) struct Request {
    pub from: Currency,
    pub to: Currency,
    pub amount: Minor,
}

pub(crate) const EUR: Currency = Currency::Euro;

pub(crate) const BEF: Currency = Currency::National(National::Bef);

pub(crate) const DEM: Currency = Currency::National(National::Dem);

pub(crate) const FRF: Currency = Currency::National(National::Frf);

pub(crate) const ITL: Currency = Currency::National(National::Itl);

pub(crate) const LUF: Currency = Currency::National(National::Luf);

pub(crate) const PTE: Currency = Currency::National(National::Pte);

/// Prints the exact amount before a rounding: so many parts, and how many of them make a whole.
fn show_exact(rt: &HostRuntime, count: u64, parts: u64, whole: u64, of: &str) -> io::Result<()> {
    match count.checked_mul(parts) {
        Some(exact) => println!(rt; "    exact {exact} parts, {whole} to a {of}"),
        None => println!(rt; "    exact amount beyond 64 bits"),
    }
}

/// Prints the exact amount that goes into the euro, of which so many parts make a whole.
fn show_exact_from(rt: &HostRuntime, request: Request, tenths: u64, of: &str) -> io::Result<()> {
    let Currency::National(from) = request.from else {
        return Ok(());
    };
    let amount = request.amount.0.unsigned_abs();
    let whole = from.rate().saturating_mul(tenths);
    show_exact(rt, amount, from.parts(), whole, of)
}

/// Prints the exact amount that mills are in the currency converted to.
fn show_exact_into(rt: &HostRuntime, request: Request, mills: u64) -> io::Result<()> {
    let Currency::National(to) = request.to else {
        return Ok(());
    };
    show_exact(rt, mills, to.rate(), to.parts(), "minor unit")
}

/// Prints a conversion: exact amounts, mills, booked amount and residues.
fn show_conversion(rt: &HostRuntime, request: Request, conversion: Conversion) -> io::Result<()> {
    match conversion {
        Conversion::IntoEuro { booked, euro } => {
            show_exact_from(rt, request, 10, "cent")?;
            println!(rt; "    booked {}, euro residue {}", booked.0, euro.0)
        }
        Conversion::FromEuro { booked, national } => {
            show_exact_into(
                rt,
                request,
                request.amount.0.unsigned_abs().saturating_mul(10),
            )?;
            println!(rt; "    booked {}, national residue {}", booked.0, national.0)
        }
        Conversion::Between {
            mills,
            euro,
            booked,
            national,
        } => {
            show_exact_from(rt, request, 1, "mill")?;
            println!(rt; "    {} mills, euro residue {}", mills.0, euro.0)?;
            show_exact_into(rt, request, mills.0)?;
            println!(rt; "    booked {}, national residue {}", booked.0, national.0)
        }
    }
}

/// Carries a request out and prints what came of it.
pub(crate) fn show_request(rt: &HostRuntime, request: Request) -> io::Result<()> {
    let Request { from, to, amount } = request;
    println!(rt; "  {from} {} to {to}", amount.0)?;
    match convert(from, to, amount) {
        Ok(conversion) => show_conversion(rt, request, conversion),
        Err(fault) => {
            let fault = Fault::from(fault);
            println!(rt; "    refused: {fault}")
        }
    }
}
