//! Tests of the top call and of openings that no script says: streams and sites that fail, and each stop of the power.
#![tactic(auto)]

#[cfg(test)]
mod opening_tests;
#[cfg(test)]
mod stream_tests;
