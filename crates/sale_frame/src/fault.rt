//! Why a stream has no next message.
use std::error::Error;
use std::fmt;

/// Why no message can follow on a stream: the four bytes where a length begins spell one that no
/// message has. The stream can't be read from there on.
#[derive(Clone, Copy, Debug, PartialEq, Eq)]
pub enum FrameFault {
    /// The length is 0.
    Zero,
    /// The length is above 65,536.
    TooLong { length: u32 },
}

impl fmt::Display for FrameFault {
    fn fmt<W: fmt::Write>(&self, f: &mut fmt::Formatter<W>) -> fmt::Result {
        match *self {
            FrameFault::Zero => write!(f, "a message of 0 bytes"),
            FrameFault::TooLong { length } => write!(f, "a message of {length} bytes"),
        }
    }
}

impl Error for FrameFault {}
