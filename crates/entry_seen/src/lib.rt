//! What a till reads in the reply to a resolved entry of the ledger.
#![tactic(auto)]

mod laws;

pub use laws::{law_example, law_replies};
