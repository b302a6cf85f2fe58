//! Two disks in memory that are used as one: what is written to both, and what is left if one is lost.
#![tactic(auto)]

mod file;
#[cfg(test)]
mod mirror_tests;
mod two_files;

pub use file::File;
pub use two_files::TwoFiles;
