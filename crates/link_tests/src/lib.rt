//! The orders in which waiting requests come out, by calls one after the other.
#![tactic(auto)]

#[cfg(test)]
mod waiting_tests;
