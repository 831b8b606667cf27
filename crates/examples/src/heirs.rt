//! Shared costs, split to the last unit, and what each portion misses of its exact part.
use apportion::{Fraction, LargerWeight, MOST_SHARES, Share, SmallerPlace, TieRule, apportion};
use money::Minor;
use register::Fault;
use std::io;

/// A notary's invoice of 100,002 escudos for an estate, shared among four heirs by what each inherits.
const ESTATE: [Share; 4] = [
    Share {
        account: 30,
        weight: 1,
    },
    Share {
        account: 31,
        weight: 3,
    },
    Share {
        account: 32,
        weight: 3,
    },
    Share {
        account: 33,
        weight: 5,
    },
];

/// Three equal shares.
const THIRDS: [Share; 3] = [
    Share {
        account: 30,
        weight: 1,
    },
    Share {
        account: 31,
        weight: 1,
    },
    Share {
        account: 32,
        weight: 1,
    },
];

/// Three shares, of which the first two miss a whole unit by the same half.
const HALVES: [Share; 3] = [
    Share {
        account: 30,
        weight: 1,
    },
    Share {
        account: 31,
        weight: 3,
    },
    Share {
        account: 32,
        weight: 2,
    },
];

/// Splits an amount and prints each portion with its fraction, or the refusal.
fn show_split<R: TieRule>(
    rt: &HostRuntime,
    rule: &R,
    name: &str,
    amount: Minor,
    shares: &[Share],
) -> io::Result<()> {
    println!(rt; "  {} by the {name}", amount.0)?;
    // two lists, which a split writes to
    let mut portions = [Minor(0); MOST_SHARES];
    let mut fractions = [Fraction(0); MOST_SHARES];
    if let Err(fault) = apportion(rule, amount, shares, &mut portions, &mut fractions) {
        let fault = Fault::from(fault);
        return println!(rt; "    refused: {fault}");
    }
    for (share, (portion, fraction)) in shares.iter().zip(portions.iter().zip(fractions.iter())) {
        println!(rt;
            "    account {} of weight {}: {}, fraction {}",
            share.account, share.weight, portion.0, fraction.0
        )?;
    }
    Ok(())
}

/// Splits an amount under both rules.
fn show_both(rt: &HostRuntime, amount: Minor, shares: &[Share]) -> io::Result<()> {
    show_split(rt, &SmallerPlace, "smaller place", amount, shares)?;
    show_split(rt, &LargerWeight, "larger weight", amount, shares)
}

/// Prints the estate, the reckoned splits and the refusals.
pub(crate) fn show(rt: &HostRuntime) -> io::Result<()> {
    println!(rt; "A notary's invoice in escudos, shared among heirs")?;
    show_both(rt, Minor(100_002), &ESTATE)?;
    println!(rt; "Splits reckoned by hand")?;
    show_split(rt, &SmallerPlace, "smaller place", Minor(100), &THIRDS)?;
    show_both(rt, Minor(3), &HALVES)?;
    println!(rt; "Refused splits")?;
    show_split(rt, &SmallerPlace, "smaller place", Minor(0), &THIRDS)?;
    show_split(rt, &SmallerPlace, "smaller place", Minor(100), &[])
}
