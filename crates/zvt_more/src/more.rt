//! A refund, a reservation and a reservation's completion.

/// A command to a terminal beside those of `zvt_msg`. A password is its six digits in three bytes, two in each, an amount is
/// in minor units, and a currency its number of ISO 4217.
#[derive(Clone, Copy, Debug, PartialEq, Eq)]
pub enum More {
    /// `06 31`, refund: gives an amount back without a payment before it.
    Refund {
        password: [u8; 3],
        amount: u64,
        currency: u16,
    },
    /// `06 22`, reservation of an amount (ZVT: "pre-authorisation").
    Reserve {
        amount: u64,
        currency: u16,
    },
    /// `06 24`, completion of the reservation with this receipt number: charges an amount (ZVT: "book total").
    Complete {
        receipt: u16,
        amount: u64,
        currency: u16,
    },
}
