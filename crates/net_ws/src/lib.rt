//! Tills that speak WebSocket, over sockets: the edge at which the operating system is trusted. Each socket of a till gets a connection
//! of its own to the gateway, and a bridge between the two.
#![tactic(auto)]

mod program;
mod seat;
mod seats;
mod stream;
mod words;

pub use program::run;
