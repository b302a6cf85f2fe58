//! Files of cases, as programs play them that report a line for each: `GROUP: NAME: as expected`, or the first line that is another.
//!
//! A line `== GROUP` begins a group of cases, and `= NAME` a case. A line of a case is a question, and each line after it that
//! begins with `> ` is a line of its result. The lines of a group before its first case come before those of each. Before the
//! first group `+ NAME` begins lines that `from NAME` gives again. Empty lines, and those that begin with `#`, say nothing.
//! A record of the journal in a question is its fields, as `bodies` says.
//! Only tests call this crate, and its functions have no contracts.
#![tactic(auto)]

mod bodies;
mod bytes;
mod cases;

pub use bodies::{body_of, form_of};
pub use bytes::{bytes_of, push_bytes, push_result_bytes};
pub use cases::{Questions, done, push_report};
