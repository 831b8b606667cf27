//! The record of a conversion.
ghost use Rattle.std.specs.Prelude.{◌≡◌};
ghost use Rattle.model.specs.Docket.{record_of, euro_left, national_left};

use model::{Record, Standing};
use money::{Conversion, Currency, Parts};

/// The euro residue of a conversion and its national residue, 0 where absent.
fn residues(conversion: Conversion) -> (Parts, Parts)
    ensures { result ≡ (euro_left conversion, national_left conversion) }
{
    match conversion {
        Conversion::IntoEuro { euro, .. } => (euro, Parts(0)),
        Conversion::FromEuro { national, .. } => (Parts(0), national),
        Conversion::Between { euro, national, .. } => (euro, national),
    }
}

/// The record of a conversion whose slip, of that number, has just been given.
pub fn record_of(number: u32, from: Currency, to: Currency, conversion: Conversion) -> Record
    ensures { result ≡ record_of number from to conversion }
{
    let (euro, national) = residues(conversion);
    Record {
        number,
        from,
        to,
        euro,
        national,
        standing: Standing::Out,
    }
}
