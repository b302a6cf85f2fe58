//! Tills that speak WebSocket, one after the other, each with a connection of its own to the gateway.
#![tactic(auto)]

use std::process::ExitCode;

fn main(rt: HostRuntime) -> ExitCode {
    net_ws::run(&rt, 1)
}
