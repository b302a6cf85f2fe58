//! A site in memory that plays a script or a drill: its tills and terminals, its disk, calls that fail and power failures.
#![tactic(auto)]

mod brought;
mod connections;
mod disk;
mod drill;
mod hazard;
mod peers;
mod place;
mod played;
mod polled;
mod sent;
mod site;
mod sought;

pub use sim_script::{ImageKind, ScriptFault};
pub use site::SimSite;
