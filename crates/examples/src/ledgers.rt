//! The same entries into a sheet and into a journal: one text for every ledger, and both must answer the same.
use crate::wording::{DEM, EUR};
use journal::Journal;
use ledger::{Balances, Entry, FractionColumn, Ledger, Leg, enter};
use money::{MOST_AMOUNT, Minor, National, Parts};
use register::Fault;
use sheet::{SHEET_CELLS, Sheet};
use std::{array, io};

/// The legs of 100 marks converted into euro, residue and all.
fn conversion() -> [Leg; 6] {
    let fraction = FractionColumn::Euro(National::Dem);
    [
        Leg::money(10, DEM, Minor(-10_000)),
        Leg::money(0, DEM, Minor(10_000)),
        Leg::money(0, EUR, Minor(-5113)),
        Leg::money(20, EUR, Minor(5113)),
        Leg::fraction(0, fraction, Parts(158_790)),
        Leg::fraction(1, fraction, Parts(-158_790)),
    ]
}

/// The largest amount from account 20 to account 10, eight times over.
fn largest() -> [Leg; 16] {
    let debit = Leg::money(10, EUR, Minor(MOST_AMOUNT));
    let credit = Leg::money(20, EUR, Minor(-MOST_AMOUNT));
    array::from_fn(|i| if i % 2 == 0 { debit } else { credit })
}

/// Two legs that any ledger has room for, and then the largest amount once more.
fn one_more() -> [Leg; 4] {
    [
        Leg::money(30, EUR, Minor(5)),
        Leg::money(40, EUR, Minor(-5)),
        Leg::money(10, EUR, Minor(MOST_AMOUNT)),
        Leg::money(20, EUR, Minor(-MOST_AMOUNT)),
    ]
}

/// Has a ledger take the legs, and prints its answer and the cells that they name.
fn show_taking<L: Ledger>(rt: &HostRuntime, ledger: &mut L, legs: &[Leg]) -> io::Result<()> {
    let Some(entry) = Entry::new(legs) else {
        return println!(rt; "    no entry");
    };
    match enter(ledger, &entry) {
        Ok(()) => println!(rt; "    took {} legs, room {}", legs.len(), ledger.room())?,
        Err(fault) => {
            let fault = Fault::from(fault);
            println!(rt; "    refused: {fault}, room {}", ledger.room())?;
        }
    }
    for leg in legs {
        let (account, column) = (leg.account as u64, leg.column as u64);
        println!(rt;
            "    cell {account} {column} {}",
            ledger.cell(account, column)
        )?;
    }
    Ok(())
}

/// Takes the largest amounts until the ledger refuses, and answers how many entries it took.
fn fill<L: Ledger>(ledger: &mut L) -> u32 {
    let Some(entry) = Entry::new(&largest()) else {
        return 0;
    };
    for taken in 0..2_000 {
        if enter(ledger, &entry).is_err() {
            return taken;
        }
    }
    2_000
}

/// Takes a conversion, fills two cells up to their limits, and is refused one leg more.
fn show_ledger<L: Ledger>(rt: &HostRuntime, ledger: &mut L) -> io::Result<()> {
    println!(rt; "  ledger {}, room {}", ledger.kind_letter(), ledger.room())?;
    show_taking(rt, ledger, &conversion())?;
    let taken = fill(ledger);
    println!(rt; "    {taken} entries of the largest amounts")?;
    show_taking(rt, ledger, &one_more())
}

/// Shows a sheet and a journal, and a journal of five records and one of six.
pub(crate) fn show(rt: &HostRuntime) -> anyhow::Result<()> {
    println!(rt; "The same entries into a sheet and a journal")?;
    let mut cells = vec![in rt.alloc(); 0i64; SHEET_CELLS]?;
    show_ledger(rt, &mut Sheet::open(cells.as_mut_slice(), 20_010))?;
    let mut records = vec![in rt.alloc(); Leg::default(); 20_010]?;
    show_ledger(rt, &mut Journal::open(records.as_mut_slice()))?;
    println!(rt; "A journal of five records and one of six")?;
    show_taking(
        rt,
        &mut Journal::open(&mut [Leg::default(); 5]),
        &conversion(),
    )?;
    show_taking(
        rt,
        &mut Journal::open(&mut [Leg::default(); 6]),
        &conversion(),
    )?;
    Ok(())
}
