//! What every wire and file format shares: bytes, prefixes, readers fed in chunks, hexadecimal digits, and the limits of
//! the whole gateway.
#![tactic(auto)]

mod hex;
mod limits;

pub use hex::{lower_hex_digit, upper_hex_digit};
pub use limits::{
    FEWEST_SLOTS, FRAME_LENGTH_SIZE, GREATEST_AMOUNT, GREATEST_RECEIPT, GREATEST_TRACE,
    LONGEST_ANSWER, LONGEST_APDU_DATA, LONGEST_CHUNK, LONGEST_CONFIGURATION, LONGEST_PAYLOAD,
    LONGEST_SCRIPT, LONGEST_SHOWN_LINE, LONGEST_WAIT, MOST_DRILL_PAYMENTS, MOST_LEVELS,
    MOST_LOGGED_OUT, MOST_OUTPUTS, MOST_PRINTED_LINES, MOST_SHOWN_LINES, MOST_SLOTS,
    MOST_TERMINALS, MOST_TILLS, MOST_WAITING,
};

#[cfg(test)]
mod tests;
