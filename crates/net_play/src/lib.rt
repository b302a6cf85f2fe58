//! How tests drive a site over loopback and real files: by calls that give plain values, at addresses and paths of their own.
//! Only tests call it, and its public functions have no contracts.
#![tactic(auto)]

/// Goes wrong with these words unless it holds.
macro_rules! check {
    ($holds:expr, $words:literal) => {
        if !$holds {
            return Err(From::from($words));
        }
    };
}

mod fixture;
mod rig;

pub use fixture::{Steps, address, check, got_nothing, path, setup, terminal_at};
pub use rig::Rig;
