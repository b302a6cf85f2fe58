//! The line that is printed of an entry of the book.
use crate::fault::Fault;
use gw_site::{Failed, Sink};
use pt_core::BookEntry;
use std::alloc::{AllocError, Global};

/// The line of an entry, as `000001 payment 10.99 receipt 0001`.
fn line_of(alloc: Global, entry: &BookEntry) -> Result<String, AllocError> {
    let kind = if entry.reversal {
        "reversal"
    } else {
        "payment"
    };
    format!(in alloc;
        "{:06} {} {}.{:02} receipt {:04}\n",
        entry.number,
        kind,
        entry.amount / 100,
        entry.amount % 100,
        entry.receipt
    )
}

/// Prints an entry.
pub(crate) fn print_entry<L: Sink>(
    alloc: Global,
    entry: &BookEntry,
    lines: &mut L,
) -> Result<(), Fault> {
    let line = line_of(alloc, entry)?;
    match lines.write(line.as_str().as_bytes()) {
        Ok(()) => Ok(()),
        Err(Failed) => Err(Fault::Output),
    }
}
