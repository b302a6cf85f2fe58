//! The currencies of this profile.
ghost use Rattle.std.specs.Prelude.{◌≡◌, ◌≢◌, MatchOption};
ghost use Rattle.gw_base.specs.declared.currency.Currency.{Currency};
ghost use Rattle.gw_base.specs.Currency.{currency_letters, currency_number};

/// A currency with two decimals, by its letters in ISO 4217.
#[derive(Clone, Copy, PartialEq, Eq, PartialOrd, Ord, Debug)]
pub enum Currency {
    Eur,
    Chf,
    Gbp,
    Usd,
    Dkk,
    Sek,
    Nok,
    Pln,
    Czk,
}

impl Currency {
    /// The currencies, in the order of their declaration.
    pub const ALL: [Currency; 9] = [
        Currency::Eur,
        Currency::Chf,
        Currency::Gbp,
        Currency::Usd,
        Currency::Dkk,
        Currency::Sek,
        Currency::Nok,
        Currency::Pln,
        Currency::Czk,
    ];

    /// The three letters.
    pub fn code(self) -> [u8; 3]
        ensures { result ≡ currency_letters self }
    {
        match self {
            Currency::Eur => *b"EUR",
            Currency::Chf => *b"CHF",
            Currency::Gbp => *b"GBP",
            Currency::Usd => *b"USD",
            Currency::Dkk => *b"DKK",
            Currency::Sek => *b"SEK",
            Currency::Nok => *b"NOK",
            Currency::Pln => *b"PLN",
            Currency::Czk => *b"CZK",
        }
    }

    /// The number of three digits.
    pub fn number(self) -> u16
        ensures { result ≡ currency_number self }
    {
        match self {
            Currency::Eur => 978,
            Currency::Chf => 756,
            Currency::Gbp => 826,
            Currency::Usd => 840,
            Currency::Dkk => 208,
            Currency::Sek => 752,
            Currency::Nok => 578,
            Currency::Pln => 985,
            Currency::Czk => 203,
        }
    }

    /// The currency with these three letters; `None` where this profile has none.
    pub fn from_code(code: &[u8; 3]) -> Option<Currency>
        ensures { MatchOption result ((c : Currency) → currency_letters c ≢ code.now) (λ c. currency_letters c ≡ code.now) }
    {
        for currency in Currency::ALL {
            if currency.code() == *code {
                return Some(currency);
            }
        }
        None
    }

    /// The currency with this number of three digits; `None` where this profile has none.
    pub fn from_number(number: u16) -> Option<Currency>
        ensures { MatchOption result ((c : Currency) → currency_number c ≢ number) (λ c. currency_number c ≡ number) }
    {
        for currency in Currency::ALL {
            if currency.number() == number {
                return Some(currency);
            }
        }
        None
    }
}

/// Each currency has letters and a number of its own.
pub fn law_currencies()
    ensures codes { (a b : Currency) → currency_letters a ≡ currency_letters b → a ≡ b }
    ensures numbers { (a b : Currency) → currency_number a ≡ currency_number b → a ≡ b }
{}
