//! A whole job on a book, from opening to audit, with every action printed.
use apportion::{Fraction, Share, SmallerPlace};
use book::Book;
use journal::Journal;
use ledger::{Balances, Ledger, Leg};
use model::{Division, Exchange, Posting};
use money::Minor;
use reader::read_line;
use register::Fault;
use requests::{carry_number, convert_and_park};
use runner::write_audit;
use std::io;

const EUR: u64 = 0;

const DEM: u64 = 2;

const FRF: u64 = 4;

const ITL: u64 = 6;

/// The three guests who share the hotel bill.
const GUESTS: [Share; 3] = [
    Share {
        account: 50,
        weight: 1,
    },
    Share {
        account: 51,
        weight: 1,
    },
    Share {
        account: 52,
        weight: 1,
    },
];

// The runtime and the book come down from `show`, each borrowed for one call: a struct of both would be no plainer.

fn show_posting<L: Ledger>(
    rt: &HostRuntime,
    book: &mut Book<L>,
    legs: &[Posting],
) -> io::Result<()> {
    match book.post(legs) {
        Ok(()) => println!(rt; "  posted {} legs", legs.len()),
        Err(fault) => println!(rt; "  post refused: {fault}"),
    }
}

fn show_conversion<L: Ledger>(
    rt: &HostRuntime,
    book: &mut Book<L>,
    source: u64,
    target: u64,
    amount: i64,
) -> io::Result<()> {
    let exchange = Exchange {
        from: 10,
        to: 20,
        source,
        target,
        amount: Minor(amount),
    };
    match convert_and_park(book, exchange) {
        Ok((booked, number)) => println!(rt;
            "  converted {amount} of currency {source} to {} of currency {target}, slip {number}",
            booked.0
        ),
        Err(fault) => println!(rt; "  conversion refused: {fault}"),
    }
}

fn show_carry<L: Ledger>(
    rt: &HostRuntime,
    book: &mut Book<L>,
    number: u64,
    account: u64,
) -> io::Result<()> {
    match carry_number(book, number, account) {
        Ok(()) => println!(rt; "  carried slip {number} to account {account}"),
        Err(fault) => println!(rt; "  carry of slip {number} refused: {fault}"),
    }
}

fn show_sweep<L: Ledger>(
    rt: &HostRuntime,
    book: &mut Book<L>,
    account: u64,
    column: u64,
) -> io::Result<()> {
    match book.sweep(account, column) {
        Ok(moved) => println!(rt;
            "  swept {} from column {column} of account {account}, {} parts stay",
            moved.0,
            book.cell(account, column)
        ),
        Err(fault) => println!(rt; "  sweep refused: {fault}"),
    }
}

fn show_split<L: Ledger>(rt: &HostRuntime, book: &mut Book<L>, amount: i64) -> io::Result<()> {
    let bill = Division {
        account: 20,
        currency: EUR,
        amount: Minor(amount),
    };
    // two lists, which a split writes to
    let mut portions = [Minor(0); 3];
    let mut fractions = [Fraction(0); 3];
    match book.split(&SmallerPlace, bill, &GUESTS, &mut portions, &mut fractions) {
        Ok(()) => println!(rt;
            "  split {amount} cents: {} {} {}, fractions {} {} {} thirds of a cent",
            portions[0].0,
            portions[1].0,
            portions[2].0,
            fractions[0].0,
            fractions[1].0,
            fractions[2].0
        ),
        Err(fault) => println!(rt; "  split refused: {fault}"),
    }
}

/// An invoice in lire, three revenue stamps and a purchase in francs; residues go to accounts 30 and 40.
fn show_vouchers<L: Ledger>(rt: &HostRuntime, book: &mut Book<L>) -> io::Result<()> {
    show_conversion(rt, book, ITL, EUR, 1_250_000)?;
    show_carry(rt, book, 1, 30)?;
    show_conversion(rt, book, ITL, EUR, 9)?;
    show_conversion(rt, book, ITL, EUR, 9)?;
    show_conversion(rt, book, ITL, EUR, 9)?;
    show_carry(rt, book, 2, 40)?;
    show_carry(rt, book, 3, 40)?;
    show_sweep(rt, book, 40, 17)?;
    show_carry(rt, book, 4, 40)?;
    show_sweep(rt, book, 40, 17)?;
    show_conversion(rt, book, DEM, FRF, 10_000)
}

/// A line that cannot be read, a call that the book refuses, and an entry that finds no room.
fn show_refusals<L: Ledger>(rt: &HostRuntime, book: &mut Book<L>) -> io::Result<()> {
    if let Err(fault) = read_line(b"conv 10 20 DEM XXX 10000") {
        let fault = Fault::from(fault);
        println!(rt; "  line refused: {fault}")?;
    }
    show_conversion(rt, book, DEM, DEM, 10_000)?;
    show_conversion(rt, book, DEM, EUR, 10_000)
}

/// Opens a book over a journal of 52 records, does the job and prints the audit.
pub(crate) fn show(rt: &HostRuntime) -> anyhow::Result<()> {
    println!(rt; "A job on a book over a journal")?;
    let mut records = [Leg::default(); 52];
    let mut book = Book::open(Journal::open(&mut records), 1999);
    let done = show_job(rt, &mut book);
    let _journal = book.close();
    done?;
    Ok(())
}

/// Prints the audit of a book.
fn show_audit<L: Ledger>(rt: &HostRuntime, book: &Book<L>) -> anyhow::Result<()> {
    let mut text = String::new(rt.alloc());
    write_audit(book, &mut text)?;
    print!(rt; "{text}")?;
    Ok(())
}

fn show_job<L: Ledger>(rt: &HostRuntime, book: &mut Book<L>) -> anyhow::Result<()> {
    let capital = [
        Posting {
            account: 10,
            currency: ITL,
            amount: Minor(2_000_000),
        },
        Posting {
            account: 11,
            currency: ITL,
            amount: Minor(-2_000_000),
        },
    ];
    show_posting(rt, book, &capital)?;
    show_vouchers(rt, book)?;
    show_split(rt, book, 10_001)?;
    show_refusals(rt, book)?;
    show_audit(rt, book)
}
