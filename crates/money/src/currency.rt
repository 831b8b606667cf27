//! The currencies of the changeover, and the table of their fixed rates.
ghost use Rattle.std.specs.Prelude.{◌≡◌, Some};
ghost use Rattle.money.specs.Table.{rate, parts, number_of, code_of, numbered, coded};

use std::fmt;

/// A national currency that the euro replaced, and its number in the table.
#[derive(Clone, Copy, PartialEq, Eq)]
pub enum National {
    Bef = 1,
    Dem = 2,
    Esp = 3,
    Frf = 4,
    Iep = 5,
    Itl = 6,
    Luf = 7,
    Nlg = 8,
    Ats = 9,
    Pte = 10,
    Fim = 11,
}

/// The euro, or a national currency.
#[derive(Clone, Copy, Default, PartialEq, Eq)]
pub enum Currency {
    #[default]
    Euro,
    National(National),
}

impl National {
    /// R: one euro is R ÷ 10^k units of the currency, with the k of the table.
    pub fn rate(self) -> u64
        ensures { result ≡ rate self }
    {
        match self {
            National::Bef | National::Luf => 403_399,
            National::Dem => 195_583,
            National::Esp => 166_386,
            National::Frf => 655_957,
            National::Iep => 787_564,
            National::Itl => 193_627,
            National::Nlg => 220_371,
            National::Ats => 137_603,
            National::Pte => 200_482,
            National::Fim => 594_573,
        }
    }

    /// P: the parts to a minor unit in the currency's national fraction column.
    pub fn parts(self) -> u64
        ensures { result ≡ parts self }
    {
        match self {
            National::Bef | National::Luf | National::Iep => 10_000_000,
            National::Dem
            | National::Esp
            | National::Frf
            | National::Nlg
            | National::Pte
            | National::Fim => 1_000_000,
            National::Itl | National::Ats => 100_000,
        }
    }
}

// A currency has a number and a code, so each way is a method with its name: a `From` would not say which.
impl Currency {
    /// Every currency, by its number.
    pub const ALL: [Currency; 12] = [
        Currency::Euro,
        Currency::National(National::Bef),
        Currency::National(National::Dem),
        Currency::National(National::Esp),
        Currency::National(National::Frf),
        Currency::National(National::Iep),
        Currency::National(National::Itl),
        Currency::National(National::Luf),
        Currency::National(National::Nlg),
        Currency::National(National::Ats),
        Currency::National(National::Pte),
        Currency::National(National::Fim),
    ];

    /// The number of the currency in the table; the euro is 0.
    pub fn number(self) -> u8
        ensures { result ≡ number_of self }
    {
        match self {
            Currency::Euro => 0,
            Currency::National(national) => national as u8,
        }
    }

    /// The three capitals of the currency.
    pub fn code(self) -> [u8; 3]
        ensures { result ≡ code_of self }
    {
        match self {
            Currency::Euro => *b"EUR",
            Currency::National(National::Bef) => *b"BEF",
            Currency::National(National::Dem) => *b"DEM",
            Currency::National(National::Esp) => *b"ESP",
            Currency::National(National::Frf) => *b"FRF",
            Currency::National(National::Iep) => *b"IEP",
            Currency::National(National::Itl) => *b"ITL",
            Currency::National(National::Luf) => *b"LUF",
            Currency::National(National::Nlg) => *b"NLG",
            Currency::National(National::Ats) => *b"ATS",
            Currency::National(National::Pte) => *b"PTE",
            Currency::National(National::Fim) => *b"FIM",
        }
    }

    /// The currency of that number; there is none above 11.
    pub fn from_number(number: u64) -> Option<Currency>
        ensures { result ≡ numbered number }
    {
        Currency::ALL.get(number as usize).copied()
    }

    /// The currency of that code, or none if the table has no such code.
    pub fn from_code(code: [u8; 3]) -> Option<Currency>
        ensures { result ≡ coded code }
    {
        for currency in Currency::ALL {
            if code == currency.code() {
                return Some(currency);
            }
        }
        None
    }
}

/// The currency's code.
impl fmt::Display for Currency {
    ghost output = { λ c. Some (code_of c) };

    fn fmt<W: fmt::Write>(&self, f: &mut fmt::Formatter<W>) -> fmt::Result {
        let [a, b, c] = self.code();
        let (a, b, c) = (a as char, b as char, c as char);
        write!(f, "{a}{b}{c}")
    }
}
