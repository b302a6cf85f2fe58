//! The gateway's decisions: the reply to each message of a till, and what each event of a terminal makes of what is remembered.
#![tactic(auto)]

mod act;
mod awaited;
mod beginning;
mod content;
mod days;
mod device_requests;
mod displays;
mod gateway;
mod gone;
mod handling;
mod kept_replies;
mod links;
mod queues;
mod reconciliations;
mod refusal;
mod reports;
mod reversals;
mod serving;
mod sessions;
mod steps;
mod stops;
mod terminals;
mod till;
mod waiting;

pub use act::{Act, Acts, Printed};
pub use gateway::Gateway;
pub use terminals::{Core, Timer};
pub use till::Given;
