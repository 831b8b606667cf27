//! Where a book's limits lie, each compared with what was reckoned by hand.
use book::Book;
use journal::Journal;
use ledger::{Balances, Ledger, Leg};
use model::Exchange;
use money::{MOST_AMOUNT, Minor};
use register::Fault;
use requests::{carry_number, convert_and_park};
use std::io;

fn exchange(source: u64, target: u64, amount: i64) -> Exchange {
    Exchange {
        from: 10,
        to: 20,
        source,
        target,
        amount: Minor(amount),
    }
}

/// What an act on a book over so many records answers.
fn on_book<T, F: FnOnce(&mut Book<Journal<'_>>) -> T>(records: &mut [Leg], act: F) -> T
    requires { F.IsAlwaysCallable act }
{
    let mut book = Book::open(Journal::open(records), 1);
    let answer = act(&mut book);
    let _journal = book.close();
    answer
}

/// How 100 marks into euro are answered by a book over so many records.
fn marks_over(records: &mut [Leg]) -> Option<Fault> {
    on_book(records, |book| {
        convert_and_park(book, exchange(2, 0, 10_000)).err()
    })
}

/// How the largest amount of euro into marks is answered.
fn largest_into_marks() -> Option<Fault> {
    on_book(&mut [Leg::default(); 8], |book| {
        convert_and_park(book, exchange(0, 2, MOST_AMOUNT)).err()
    })
}

/// Converts so often, carrying nothing, and answers the last refusal, if the last conversion was refused.
fn convert_often<L: Ledger>(book: &mut Book<L>, times: u32) -> Option<Fault> {
    let mut last = None;
    for _ in 0..times {
        last = convert_and_park(book, exchange(6, 0, 9)).err();
    }
    last
}

/// How the last of so many conversions is answered if nothing is carried.
fn nothing_carried(times: u32) -> Option<Fault> {
    on_book(
        &mut [Leg::default(); 500],
        |book| convert_often(book, times),
    )
}

/// Carries so many slips of nine lire to account 40.
fn carry_often<L: Ledger>(book: &mut Book<L>, slips: u32) {
    for _ in 0..slips {
        if let Ok((_, number)) = convert_and_park(book, exchange(6, 0, 9)) {
            let _ = carry_number(book, u64::from(number), 40);
        }
    }
}

/// Sweeps account 40 after so many slips of nine lire: the refusal, and what stays in the column.
fn sweep_after(slips: u32) -> (Option<Fault>, i64) {
    on_book(&mut [Leg::default(); 100], |book| {
        carry_often(book, slips);
        (book.sweep(40, 17).err(), book.cell(40, 17))
    })
}

/// How a book answers a slip of another.
fn foreign_slip() -> Option<Fault> {
    let mut ours = [Leg::default(); 8];
    let mut theirs = [Leg::default(); 8];
    let mut book = Book::open(Journal::open(&mut ours), 1);
    let mut other = Book::open(Journal::open(&mut theirs), 2);
    let refused = match book.convert(exchange(2, 0, 10_000)) {
        Ok((_, slip)) => match slip.carry(&mut other, 40) {
            Ok(()) => None,
            Err((slip, fault)) => {
                let _ = slip.park(&mut book);
                Some(fault)
            }
        },
        Err(fault) => Some(fault),
    };
    let _journal = book.close();
    let _journal = other.close();
    refused
}

/// Prints the number of a refusal, 0 where there is none, and whether it is the one expected.
fn show_limit(
    rt: &HostRuntime,
    what: &str,
    refused: Option<Fault>,
    expected: Option<u8>,
) -> io::Result<()> {
    let found = refused.map(Fault::number);
    let number = found.unwrap_or(0);
    let verdict = if found == expected {
        "agrees"
    } else {
        "DIFFERS"
    };
    println!(rt; "  {what}: {number}, {verdict}")
}

/// Prints each limit of a book.
pub(crate) fn show(rt: &HostRuntime) -> io::Result<()> {
    println!(rt; "Limits of a book, by the number of the refusal")?;
    show_limit(
        rt,
        "marks over 5 records",
        marks_over(&mut [Leg::default(); 5]),
        Some(17),
    )?;
    show_limit(
        rt,
        "marks over 6 records",
        marks_over(&mut [Leg::default(); 6]),
        None,
    )?;
    show_limit(
        rt,
        "the largest amount into marks",
        largest_into_marks(),
        Some(9),
    )?;
    show_limit(
        rt,
        "64 conversions, nothing carried",
        nothing_carried(64),
        None,
    )?;
    show_limit(
        rt,
        "65 conversions, nothing carried",
        nothing_carried(65),
        Some(10),
    )?;
    show_limit(rt, "a slip of another book", foreign_slip(), Some(12))?;
    let (refused, stays) = sweep_after(2);
    show_limit(
        rt,
        "a sweep after two slips of nine lire",
        refused,
        Some(15),
    )?;
    println!(rt; "    {stays} parts stay")?;
    let (refused, stays) = sweep_after(3);
    show_limit(rt, "a sweep after three", refused, None)?;
    println!(rt; "    {stays} parts stay")
}
