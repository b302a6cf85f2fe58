//! How tests play whole scripts: replays by the top call, compared with what is wanted, and sites in memory that hold files.
//! Only tests call it, and its public functions have no contracts.
#![tactic(auto)]

mod files;
mod replay;

pub use files::{check_log, check_runs, log_text, push_next_run, run_all, run_once, site_of};
pub use replay::{compare, difference, ended, ended_over, replayed};
