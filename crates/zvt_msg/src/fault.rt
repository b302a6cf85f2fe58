//! The faults of a message.

use std::error::Error;
use std::fmt;
use zvt_bmp::FieldFault;
use zvt_tlv::TlvFault;

/// Why an APDU is no message. An offset is one in the APDU's data.
#[derive(Clone, Copy, Debug, PartialEq, Eq, Hash)]
pub enum PtFault {
    /// The first faulty field of a status.
    Field(FieldFault),
    /// A block that is no container, reported at 0, or its first malformed object.
    Tlv(TlvFault),
}

impl fmt::Display for PtFault {
    fn fmt<W: fmt::Write>(&self, f: &mut fmt::Formatter<W>) -> fmt::Result {
        match self {
            PtFault::Field(fault) => write!(f, "{fault}"),
            PtFault::Tlv(fault) => write!(f, "{fault}"),
        }
    }
}

impl Error for PtFault {}
