//! Tests of the file of a site, and of a site in a process of its own.
#![tactic(auto)]

/// Goes wrong with these words unless it holds.
#[cfg(test)]
macro_rules! check {
    ($holds:expr, $words:literal) => {
        if !$holds {
            return Err(From::from($words));
        }
    };
}

#[cfg(test)]
mod alone_tests;
#[cfg(test)]
mod file_tests;
#[cfg(test)]
mod shell;
