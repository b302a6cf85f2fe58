//! Why a journal was not opened, or a body not kept.
ghost use Rattle.std.specs.Prelude.{◌≡◌};

use std::error::Error;
use std::fmt;

/// Why a journal was not opened.
#[derive(Clone, Copy, Debug, PartialEq, Eq)]
pub enum OpenFault {
    /// A call on the disk has failed.
    Disk,
    /// The file has this length in bytes, which is more than its slots take.
    TooLong { length: u64 },
    /// This slot is open, and the file ends before the gate of the next.
    Cut { slot: u32 },
    /// Memory was refused.
    Memory,
}

impl fmt::Display for OpenFault {
    fn fmt<W: fmt::Write>(&self, f: &mut fmt::Formatter<W>) -> fmt::Result {
        match self {
            OpenFault::Disk => write!(f, "a call on the disk has failed"),
            OpenFault::TooLong { length } => write!(f, "the journal has {length} bytes"),
            OpenFault::Cut { slot } => write!(f, "the journal is cut in slot {slot}"),
            OpenFault::Memory => write!(f, "out of memory"),
        }
    }
}

impl Error for OpenFault {}

/// Why a body was not kept.
#[derive(Clone, Copy, Debug, PartialEq, Eq)]
pub enum AppendFault {
    /// A call on the disk has failed. The journal is opened again before it is used.
    Disk,
}

impl fmt::Display for AppendFault {
    fn fmt<W: fmt::Write>(&self, f: &mut fmt::Formatter<W>) -> fmt::Result {
        match self {
            AppendFault::Disk => write!(f, "a call on the disk has failed"),
        }
    }
}

impl Error for AppendFault {}
