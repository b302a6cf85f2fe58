//! The faults of a text, and the errors of the reader.
ghost use Rattle.std.specs.Prelude.{◌≡◌, ◌≤◌, length};
ghost use Rattle.json_text.specs.inner.ByteFaults.{fault_at};
ghost use Rattle.json_text.specs.FaultText.{kind_text};

use std::alloc::{AllocError, AllocFailed};
use std::error::Error;
use std::fmt;

/// Why a text is refused.
#[derive(Clone, Copy, Debug, PartialEq, Eq)]
pub enum FaultKind {
    /// None of the others.
    NotJson,
    /// More than 32 arrays and objects would be open.
    TooDeep,
    /// A member name that the object has already.
    Repeated,
    /// No UTF-8 in a string.
    BadUtf8,
}

/// Where a text is refused, and why.
#[derive(Clone, Copy, Debug, PartialEq, Eq)]
pub struct JsonFault {
    /// The length of the longest prefix with which some text begins.
    pub at: usize,
    pub kind: FaultKind,
}

/// Why no tree is returned: no memory, or a fault of the text.
#[derive(Clone, Copy, Debug, PartialEq, Eq)]
pub enum ReadError {
    Memory,
    Fault(JsonFault),
}

impl FaultKind {
    /// The kind's name.
    pub fn as_str(self) -> &'static str
        ensures text { result.now ≡ kind_text self }
        ensures short { length result.now ≤ 8 }
    {
        match self {
            FaultKind::NotJson => "NotJson",
            FaultKind::TooDeep => "TooDeep",
            FaultKind::Repeated => "Repeated",
            FaultKind::BadUtf8 => "BadUtf8",
        }
    }
}

impl fmt::Display for JsonFault {
    ghost use Rattle.std.specs.Prelude.{Some};
    ghost use Rattle.json_text.specs.FaultText.{fault_text};

    ghost output = { λ f. Some (fault_text f) };

    fn fmt<W: fmt::Write>(&self, f: &mut fmt::Formatter<W>) -> fmt::Result {
        let (fault_kind, offset) = (self.kind.as_str(), self.at);
        write!(f, "{fault_kind} {offset}")
    }
}

impl Error for JsonFault {}

impl fmt::Display for ReadError {
    ghost use Rattle.std.specs.Prelude.{Some};
    ghost use Rattle.json_text.specs.FaultText.{error_text};

    ghost output = { λ e. Some (error_text e) };

    fn fmt<W: fmt::Write>(&self, f: &mut fmt::Formatter<W>) -> fmt::Result {
        match self {
            ReadError::Memory => write!(f, "out of memory"),
            ReadError::Fault(fault) => write!(f, "{fault}"),
        }
    }
}

impl Error for ReadError {}

/// The error of a fault at this offset.
pub(crate) fn fault(at: usize, fault_kind: FaultKind) -> ReadError
    ensures { result ≡ fault_at at fault_kind }
{
    ReadError::Fault(JsonFault {
        at,
        kind: fault_kind,
    })
}

/// The error where no text goes on at this offset, for no reason that has a kind of its own.
pub(crate) fn not_json(at: usize) -> ReadError
    ensures { result ≡ fault_at at FaultKind.NotJson }
{
    fault(at, FaultKind::NotJson)
}

impl From<AllocError> for ReadError {
    ghost use Rattle.json_text.specs.declared.fault.ReadError.TheVariants.{Memory};

    ghost from_gives = { λ _ e. e ≡ Memory };

    fn from(_: AllocError) -> Self {
        ReadError::Memory
    }
}

impl<T: Drop> From<AllocFailed<T>> for ReadError {
    ghost use Rattle.json_text.specs.declared.fault.ReadError.TheVariants.{Memory};

    ghost from_gives = { λ _ e. e ≡ Memory };

    fn from(_: AllocFailed<T>) -> Self {
        ReadError::Memory
    }
}
