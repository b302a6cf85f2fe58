//! Plays tables of cases of terminals: bytes, dialogues and what is translated for them, in files of the form that `case_files` says. The
//! arguments are the names of the files.
#![tactic(auto)]

mod apdus;
mod commands;
mod dialogues;
mod fields;
mod messages;
mod objects;
mod questions;
mod translation;

use crate::questions::OnTerminals;
use case_files::push_report;
use std::rt::Files;
use std::{env, fs};

/// Prints a line for each case of a file.
fn report<R: Print + Files + AllocGlobal>(rt: &R, file: &str) -> anyhow::Result<()> {
    let text = fs::read_to_string(rt, file)?;
    let mut lines = String::new(rt.alloc());
    push_report::<OnTerminals>(rt.alloc(), &mut lines, text.as_str())?;
    print!(rt; "{lines}")?;
    Ok(())
}

fn main(rt: HostRuntime) -> anyhow::Result<()> {
    let mut files = env::args(&rt)?;
    let _program = files.next();
    for file in files {
        report(&rt, file.as_str())?;
    }
    Ok(())
}
