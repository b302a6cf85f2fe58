//! The fault of a stream of APDUs.

use std::error::Error;
use std::fmt;

/// Why bytes are no stream of APDUs.
#[derive(Clone, Copy, Debug, PartialEq, Eq, Hash)]
pub enum ApduFault {
    /// A length, in bytes of data, above the 12,000 that this profile takes.
    TooLong { length: u16 },
}

impl fmt::Display for ApduFault {
    fn fmt<W: fmt::Write>(&self, f: &mut fmt::Formatter<W>) -> fmt::Result {
        match self {
            ApduFault::TooLong { length } => write!(f, "an APDU of {length} bytes is too long"),
        }
    }
}

impl Error for ApduFault {}
