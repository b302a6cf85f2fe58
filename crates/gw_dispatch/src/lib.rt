//! The loop of a run over any site: it is opened and polled, and what each round owes is done.
#![tactic(auto)]

mod engine;
mod fault;
mod keeping;
mod messages;
mod perform;
mod printing;
mod pts;
mod records;
mod replier;
mod run_state;
mod serving;
mod tills;

pub use engine::{Dispatch, Ended, RoundEnd, TalliedEnd, run, run_tallied};
pub use fault::TurnFault;
pub use records::{Records, Unopened};
