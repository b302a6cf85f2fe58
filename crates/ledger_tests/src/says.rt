//! What a ledger says of till `S` and terminal `A`, a line each:
//! - `payments COUNT UNITS` and `reversals COUNT UNITS`, the totals in euros since the last reconciliation;
//! - `accepted N`, `approved N`, `unresolved N` and `sum UNITS`, of all terminals;
//! - `entry SERVICE SLOT NUMBER`, the trace number of its Outcome or `none`, or `closed SERVICE SLOT COUNT UNITS COUNT UNITS`,
//!   payments and reversals, or `unknown SERVICE`, of the first ServiceIDs.
use gw_base::{Currency, Ident, Key};
use gw_ledger::{Closed, Entry, Found, Ledger, Tally, Totals};
use std::alloc::AllocError;
use std::process::Abort;
use std::test::Fail;

/// Terminal `A`.
pub(crate) fn terminal() -> Result<Ident<40>, Fail> {
    Ok(Ident::of(b"A").ok_or("POIID")?)
}

/// Till `S`.
fn till() -> Result<Ident<40>, Fail> {
    Ok(Ident::of(b"S").ok_or("SaleID")?)
}

fn key(service: &str) -> Result<Key, Fail> {
    Ok(Key {
        sale: till()?,
        poi: terminal()?,
        service: Ident::of(service.as_bytes()).ok_or("ServiceID")?,
    })
}

// Of each function below that calls a ledger nothing is said, so that those that call it have no facts to carry along.

fn totals(ledger: &Ledger, poi: &Ident<40>) -> Totals {
    ledger.totals(poi, Currency::Eur)
}

fn tally(ledger: &Ledger) -> Tally {
    ledger.tally()
}

fn found(ledger: &Ledger, key: &Key) -> Option<Found> {
    ledger.find(key)
}

fn push_number(text: &mut String, word: &str, number: u64) -> Result<(), AllocError> {
    write!(text, "{word} {number}\n")
}

fn push_total(text: &mut String, word: &str, total: (u32, u64)) -> Result<(), AllocError> {
    let (count, units) = total;
    write!(text, "{word} {count} {units}\n")
}

fn push_terminal(text: &mut String, ledger: &Ledger) -> Result<(), Fail> {
    let poi = terminal()?;
    let totals = totals(ledger, &poi);
    push_total(text, "payments", totals.debit)?;
    push_total(text, "reversals", totals.reversed)?;
    Ok(())
}

fn push_tally(text: &mut String, ledger: &Ledger) -> Result<(), AllocError> {
    let tally = tally(ledger);
    push_number(text, "accepted", u64::from(tally.accepted))?;
    push_number(text, "approved", u64::from(tally.approved))?;
    push_number(text, "unresolved", u64::from(tally.unresolved))?;
    push_number(text, "sum", tally.sum)
}

fn push_entry(text: &mut String, service: &str, entry: &Entry) -> Result<(), AllocError> {
    write!(text, "entry {service} ")?;
    match &entry.result {
        Some(outcome) => write!(text, "{} {}\n", entry.slot, outcome.number),
        None => write!(text, "{} none\n", entry.slot),
    }
}

fn push_closed(text: &mut String, service: &str, closed: &Closed) -> Result<(), AllocError> {
    write!(text, "closed {service} {} ", closed.slot)?;
    push_totals(text, &closed.totals)
}

/// Appends the payments and the reversals of totals.
pub(crate) fn push_totals(text: &mut String, totals: &Totals) -> Result<(), AllocError> {
    let (payments, paid) = totals.debit;
    let (reversals, reversed) = totals.reversed;
    write!(text, "{payments} {paid} {reversals} {reversed}\n")
}

/// Appends what has the key with this ServiceID.
pub(crate) fn push_found(text: &mut String, ledger: &Ledger, service: &str) -> Result<(), Fail> {
    match found(ledger, &key(service)?) {
        Some(Found::Entry(entry)) => push_entry(text, service, &entry)?,
        Some(Found::Closed(closed)) => push_closed(text, service, &closed)?,
        None => write!(text, "unknown {service}\n")?,
    }
    Ok(())
}

/// Appends what has the keys with these ServiceIDs.
pub(crate) fn push_keys(text: &mut String, ledger: &Ledger, services: &str) -> Result<(), Fail> {
    for service in services.split(' ') {
        push_found(text, ledger, service)?;
    }
    Ok(())
}

/// Appends what a ledger says.
pub(crate) fn push_says(text: &mut String, ledger: &Ledger) -> Result<(), Fail> {
    push_terminal(text, ledger)?;
    push_tally(text, ledger)?;
    push_keys(text, ledger, "1 2 3 4 5")
}

/// Whether a line is among others.
fn has_line(lines: &str, wanted: &str) -> bool {
    for line in lines.split('\n') {
        if line == wanted {
            return true;
        }
    }
    false
}

/// Each line of a row after `> ` is among these.
pub(crate) fn check_lines(rt: &impl Abort, row: &str, lines: &str) {
    for line in row.split('\n') {
        if let Some(wanted) = line.strip_prefix("> ") {
            assert!(rt;
                has_line(lines, wanted),
                "{wanted} of {row} is none of {lines}"
            );
        }
    }
}
