//! Tests of bridges: over sockets of the kit's crate on streams in memory, and over real streams.
#![tactic(auto)]

#[cfg(test)]
mod bridge_tests;
#[cfg(test)]
mod play;
#[cfg(test)]
mod stream_tests;
