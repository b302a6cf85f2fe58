//! Tills by WebSocket (RFC 6455): one socket joined to one connection of the gateway. Each message of the socket is one
//! message of a till, without the four bytes of length that a frame of the gateway's connection has before it.
#![tactic(auto)]

mod bridge;
mod fault;
mod gate;
mod laws;
mod memory_gate;
mod memory_wire;
mod patient;
mod socket_wire;
mod stream_gate;
mod wire;

pub use bridge::{Bridge, Bridged};
pub use fault::BridgeFault;
pub use gate::Gate;
pub use laws::law_turn_examples;
pub use memory_gate::{MemGate, Pieces};
pub use memory_wire::{Gots, MemWire};
pub use patient::Patient;
pub use socket_wire::{SocketWire, socket_limits};
pub use stream_gate::StreamGate;
pub use wire::{Got, Wire, WireFault};
