//! The ZVT terminal (PA00P015) that the project plays: it reacts to each whole command at once, by its plays, and keeps a
//! book.
#![tactic(auto)]

mod account;
mod book;
mod hearing;
mod laws;
mod play;
mod reaction;
mod requests;
mod terminal;

pub use book::{Book, BookEntry};
pub use laws::{law_all_heard, law_book, law_ends, law_examples, law_honest, law_met};
pub use play::{Play, Plays};
pub use terminal::{Answer, Terminal};
