//! The fault of TLV objects.

use std::error::Error;
use std::fmt;

/// The offset, in bytes, of the first object that is malformed: it is truncated, has a tag of more than three bytes, or
/// has a length that begins with `80` or with a byte above `82`.
#[derive(Clone, Copy, Debug, PartialEq, Eq, Hash)]
pub struct TlvFault {
    pub at: usize,
}

impl fmt::Display for TlvFault {
    fn fmt<W: fmt::Write>(&self, f: &mut fmt::Formatter<W>) -> fmt::Result {
        write!(f, "no TLV object at {}", self.at)
    }
}

impl Error for TlvFault {}
