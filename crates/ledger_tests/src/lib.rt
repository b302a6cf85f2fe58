//! A ledger that records are added to, one call after the other: a day with a payment and a reconciliation more, and payments in more
//! than one block.
#![tactic(auto)]

#[cfg(test)]
mod adding_tests;
#[cfg(test)]
mod block_tests;
#[cfg(test)]
mod records;
#[cfg(test)]
mod says;
