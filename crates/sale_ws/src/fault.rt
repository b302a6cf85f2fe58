//! Why a turn of a bridge failed.
use std::error::Error;
use std::fmt;

/// Why a turn failed. After it the bridge is only dropped.
#[derive(Clone, Copy, Debug, PartialEq, Eq)]
pub enum BridgeFault {
    /// A call on the connection to the gateway has failed.
    Gate,
    /// The gateway sent the length of a message that no frame has, 0 or above 65,536.
    Frame,
    /// The socket's message has no frame: its length in bytes is 0 or above 65,536.
    Length { length: u64 },
    /// A call on the socket has failed.
    Socket,
    /// Memory was refused.
    Memory,
}

impl fmt::Display for BridgeFault {
    fn fmt<W: fmt::Write>(&self, f: &mut fmt::Formatter<W>) -> fmt::Result {
        match *self {
            BridgeFault::Gate => write!(f, "the connection to the gateway has failed"),
            BridgeFault::Frame => write!(f, "no frame of the gateway has this length"),
            BridgeFault::Length { length } => write!(f, "a message of {length} bytes"),
            BridgeFault::Socket => write!(f, "the socket has failed"),
            BridgeFault::Memory => write!(f, "no memory"),
        }
    }
}

impl Error for BridgeFault {}
