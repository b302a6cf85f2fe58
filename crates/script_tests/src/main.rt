//! Plays the cases of the files beside it, each a whole script or configuration with what the gateway must make of it, by the top call over memory.
//!
//! It prints a line for each case: its name, and `as expected` or the first line that differs. The head of `data/beginnings.txt` says how a
//! case is written.
#![tactic(auto)]

mod beginnings;
mod case;
mod filling;
mod found;
mod groups;

use beginnings::Beginnings;
use groups::play_file;
use std::fs;
use std::test::Fail;

/// The files, in the order in which they are read: a beginning holds for the files after its own too.
const FILES: [&str; 17] = [
    "beginnings.txt",
    "words.txt",
    "lines.txt",
    "openings.txt",
    "serve.txt",
    "terminals.txt",
    "dialogues.txt",
    "messages.txt",
    "sessions.txt",
    "payments.txt",
    "reversals.txt",
    "aborts.txt",
    "waiting.txt",
    "hostile.txt",
    "displays.txt",
    "reconciliations.txt",
    "ends_of_day.txt",
];

fn main(rt: HostRuntime) -> Result<(), Fail> {
    let mut beginnings = Beginnings::new(rt.alloc());
    for file in FILES {
        let text = fs::read_to_string(&rt, file)?;
        play_file(&rt, &mut beginnings, &text)?;
    }
    Ok(())
}
