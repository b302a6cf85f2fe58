//! Why a tree wasn't read.
ghost use Rattle.std.specs.Prelude.{◌≡◌};

use sale_values::SaleFault;
use std::alloc::{AllocError, AllocFailed};
use std::error::Error;
use std::fmt;

/// Why a tree wasn't read as a message.
#[derive(Clone, Copy, PartialEq, Eq, Debug)]
pub enum MessageError {
    Memory,
    Fault(SaleFault),
}

impl From<AllocError> for MessageError {
    ghost use Rattle.sale_msg.specs.declared.error.MessageError.TheVariants.{Memory};

    ghost from_gives = { λ _ e. e ≡ Memory };

    fn from(_: AllocError) -> Self {
        MessageError::Memory
    }
}

impl<T: Drop> From<AllocFailed<T>> for MessageError {
    ghost use Rattle.sale_msg.specs.declared.error.MessageError.TheVariants.{Memory};

    ghost from_gives = { λ _ e. e ≡ Memory };

    fn from(_: AllocFailed<T>) -> Self {
        MessageError::Memory
    }
}

impl fmt::Display for MessageError {
    fn fmt<W: fmt::Write>(&self, f: &mut fmt::Formatter<W>) -> fmt::Result {
        match self {
            MessageError::Memory => write!(f, "out of memory"),
            MessageError::Fault(fault) => write!(f, "{fault}"),
        }
    }
}

impl Error for MessageError {}
