//! Tills that speak WebSocket, up to 64 at the same time, each with a connection of its own to the gateway.
#![tactic(auto)]

use std::process::ExitCode;

fn main(rt: HostRuntime) -> ExitCode {
    net_ws::run(&rt, 64)
}
