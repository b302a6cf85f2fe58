//! The records of the journal, and the body of 255 bytes of each.
#![tactic(auto)]

mod body_fields;
mod laws;
mod layout;
mod read;
mod records;
mod write;

pub use body_fields::RecordFault;
pub use laws::law_bodies;
pub use read::from_body;
pub use records::{Deal, How, Intent, Outcome, Record, Settled};
pub use write::to_body;
