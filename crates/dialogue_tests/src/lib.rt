//! Power failures in payments, in whole scripts by the top call, a played terminal alone, and streams over memory.
#![tactic(auto)]

#[cfg(test)]
mod fixture;
#[cfg(test)]
mod played_terminal_tests;
#[cfg(test)]
mod recovery_tests;
#[cfg(test)]
mod stream_tests;
