//! A command to a terminal.

use arrayvec::ArrayVec;
use gw_bytes::{LONGEST_SHOWN_LINE, MOST_SHOWN_LINES};

/// A line of text that a terminal shows, in the terminal's character set: at most 40 bytes.
pub type Line = ArrayVec<u8, LONGEST_SHOWN_LINE>;

/// The lines that a terminal shows, from the top: at most eight.
pub type Lines = ArrayVec<Line, MOST_SHOWN_LINES>;

/// A command to a terminal. A password is its six digits in three bytes, two in each, and a currency its
/// number of ISO 4217.
#[derive(Clone, Debug, PartialEq, Eq, Drop)]
pub enum Command {
    /// `06 00`, registration, with the configuration byte.
    Register {
        password: [u8; 3],
        config: u8,
        currency: u16,
    },
    /// `06 01`, authorisation of an amount in minor units.
    Authorise {
        amount: u64,
        currency: u16,
    },
    /// `06 20`, repeat receipt: asks for the last transaction.
    Enquire {
        password: [u8; 3],
    },
    /// `06 30`, reversal of the payment with this receipt number.
    Reverse {
        password: [u8; 3],
        receipt: u16,
    },
    /// `06 50`, end of day.
    EndOfDay {
        password: [u8; 3],
    },
    /// `06 B0`, which asks a terminal to abort its transaction (ZVT: "abort").
    Stop,
    /// `06 E0`, display of a text.
    Show {
        lines: Lines,
    },
}
