//! Plays tables of cases of the journal: its records, and the ledger of them, in files of the form that `case_files` says. The arguments are
//! the names of the files.
#![tactic(auto)]

mod ledger;
mod questions;
mod records;

use crate::questions::OnJournals;
use case_files::push_report;
use std::rt::Files;
use std::{env, fs};

/// Prints a line for each case of a file.
fn report<R: Print + Files + AllocGlobal>(rt: &R, file: &str) -> anyhow::Result<()> {
    let text = fs::read_to_string(rt, file)?;
    let mut lines = String::new(rt.alloc());
    push_report::<OnJournals>(rt.alloc(), &mut lines, text.as_str())?;
    print!(rt; "{lines}")?;
    Ok(())
}

fn main(rt: HostRuntime) -> anyhow::Result<()> {
    let mut files = env::args(&rt)?;
    let _program = files.next();
    for file in files {
        report(&rt, file.as_str())?;
    }
    Ok(())
}
