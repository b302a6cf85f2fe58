//! The texts of cases of whole scripts: what a script and its log have for each short line, and files in words.
//! Only tests call it, and its functions have no contracts.
#![tactic(auto)]

mod display_lines;
mod file_words;
mod payment_lines;
mod tables;

pub use file_words::file_of;
pub use payment_lines::push_paid;
pub use tables::{halves, push_form, push_played, push_row, push_times};
