//! The configuration document: the setup that it gives, or its first fault.
#![tactic(auto)]

mod document;
mod fault;
mod form;
mod laws;
mod section;
mod terminal;
mod unique;
mod unknown;

pub use document::read_setup;
pub use fault::ConfigFault;
pub use laws::{law_examples, law_first_fault};
