//! Rows of configuration documents: the setup or the fault line of each.
#![tactic(auto)]

#[cfg(test)]
mod documents;
#[cfg(test)]
mod setups;
#[cfg(test)]
mod tests;
