//! Power failures after each call of a drill, once and twice: what the tills have got agrees with the terminals' books.
#![tactic(auto)]

#[cfg(test)]
mod payments;
#[cfg(test)]
mod replies;
#[cfg(test)]
mod runs;
#[cfg(test)]
mod stop_tests;
