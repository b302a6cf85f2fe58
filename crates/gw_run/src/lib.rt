//! The gateway's top call.
#![tactic(auto)]

mod drill;
mod ending;
mod input;
mod last_lines;
mod laws;
mod one_run;
mod program;
mod replay;
mod runs;
mod serving;
mod text;
mod words;

pub use ending::Ending;
pub use gw_rules::law_crash;
pub use laws::{
    law_another_log, law_failing_calls, law_one_log, law_plays, law_power, law_ready, law_status,
    law_words,
};
pub use one_run::run;
pub use program::top;
pub use serving::ServeEnding;
pub use text::{Unwritten, write_log};
pub use words::{Mode, Order};
