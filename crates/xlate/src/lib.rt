//! The translation between the messages of tills, the records of the journal and the commands of terminals.
#![tactic(auto)]

mod ask;
mod codes;
mod display;
mod laws;
mod reply;
mod text;

pub use ask::command_of;
pub use codes::condition_of;
pub use display::show_of;
pub use laws::{law_commands, law_examples, law_texts};
pub use reply::reply_of;
pub use text::transaction_text;
