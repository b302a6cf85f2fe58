//! The requests that wait: in line at each terminal, of each till, and by deadline.
#![tactic(auto)]

mod item;
mod laws;
mod lines;
mod link;
mod steps;

pub use item::{Item, LineId};
pub use laws::law_deadlines;
pub use lines::Lines;
pub use steps::Steps;
