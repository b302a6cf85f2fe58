//! Amounts, and what a terminal reports of an approval.
use crate::Currency;

/// An amount in the currency's minor units.
#[derive(Clone, Copy, PartialEq, Eq, Debug)]
pub struct Money {
    pub minor: u64,
    pub currency: Currency,
}

/// What a terminal reports of an approved entry of its book.
#[derive(Clone, Copy, PartialEq, Eq, Debug)]
pub struct Figures {
    /// The trace number, 1 to 999,999.
    pub number: u32,
    /// The receipt number, 0 to 9,999.
    pub receipt: u16,
    /// The amount in minor units.
    pub amount: u64,
}
