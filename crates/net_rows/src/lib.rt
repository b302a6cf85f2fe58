//! Tests of the sockets of a site, over loopback.
#![tactic(auto)]

/// Goes wrong with these words unless it holds.
#[cfg(test)]
macro_rules! check {
    ($holds:expr, $words:literal) => {
        if !$holds {
            return Err(From::from($words));
        }
    };
}

#[cfg(test)]
mod ahead_tests;
#[cfg(test)]
mod peer;
#[cfg(test)]
mod socket_tests;
