//! The ledger of records, and what it says of till `S` and terminal `A`.
use anyhow::Context;
use case_files::{body_of, form_of};
use gw_base::{Bodies, Currency, Ident, Key};
use gw_ledger::{Closed, Entry, Found, Ledger, LedgerFault, Totals};
use std::alloc::{AllocError, Global};

/// Terminal `A`.
fn terminal() -> Option<Ident<40>> {
    Ident::of(b"A")
}

/// The key of till `S` at terminal `A` with this ServiceID.
fn key(service: &str) -> Option<Key> {
    Some(Key {
        sale: Ident::of(b"S")?,
        poi: terminal()?,
        service: Ident::of(service.as_bytes())?,
    })
}

/// Whether a line is a record: its first word has a form.
pub fn is_record(before: &str, line: &str) -> bool {
    let (name, _) = line.split_once(' ').unwrap_or((line, ""));
    form_of(before, name).is_some()
}

/// The bodies of the records among the lines before.
fn bodies_of(alloc: Global, before: &str) -> anyhow::Result<Vec<[u8; 255]>> {
    let mut bodies = Vec::new(alloc);
    for line in before.split('\n') {
        if is_record(before, line) {
            bodies.push(body_of(alloc, before, line)?)?;
        }
    }
    Ok(bodies)
}

/// The ledger of these bodies, of which there are few.
fn folded(alloc: Global, bodies: Vec<[u8; 255]>) -> Result<Ledger, LedgerFault> {
    if bodies.len() > 1000 {
        return Err(LedgerFault::Memory);
    }
    Ledger::from_records(alloc, &Bodies::new(bodies))
}

/// Appends the slot whose record is refused, or none.
fn push_refused(alloc: Global, out: &mut String, before: &str) -> anyhow::Result<()> {
    match folded(alloc, bodies_of(alloc, before)?) {
        Ok(_) => out.push_str("> none\n")?,
        Err(LedgerFault::BadRecord(bad)) => write!(out, "> {}\n", bad.slot)?,
        Err(LedgerFault::Memory) => anyhow::bail!("no memory"),
    }
    Ok(())
}

/// The ledger of the records among the lines before.
fn ledger_of(alloc: Global, before: &str) -> anyhow::Result<Ledger> {
    match folded(alloc, bodies_of(alloc, before)?) {
        Ok(ledger) => Ok(ledger),
        Err(_) => anyhow::bail!("a record is refused"),
    }
}

fn push_slot(out: &mut String, slot: Option<u32>) -> Result<(), AllocError> {
    match slot {
        Some(slot) => write!(out, "> {slot}\n"),
        None => out.push_str("> none\n"),
    }
}

/// Appends payments and reversals, the count and the sum of each.
fn push_totals(out: &mut String, totals: &Totals) -> Result<(), AllocError> {
    let (payments, paid) = totals.debit;
    let (reversals, reversed) = totals.reversed;
    write!(
        out,
        "payments {payments} {paid} reversals {reversals} {reversed}\n"
    )
}

fn push_totals_line(out: &mut String, totals: &Totals) -> Result<(), AllocError> {
    out.push_str("> ")?;
    push_totals(out, totals)
}

fn push_entry(out: &mut String, entry: &Entry) -> Result<(), AllocError> {
    match &entry.result {
        Some(outcome) => write!(out, "> slot {} trace {}\n", entry.slot, outcome.number),
        None => write!(out, "> slot {} open\n", entry.slot),
    }
}

fn push_closed(out: &mut String, closed: &Closed) -> Result<(), AllocError> {
    write!(out, "> slot {} closed ", closed.slot)?;
    push_totals(out, &closed.totals)
}

// Of each function below that calls a ledger nothing is said, so that those that call it have no facts to carry along.

fn totals(ledger: &Ledger, poi: &Ident<40>) -> Totals {
    ledger.totals(poi, Currency::Eur)
}

fn found(ledger: &Ledger, key: &Key) -> Option<Found> {
    ledger.find(key)
}

fn named(ledger: &Ledger, poi: &Ident<40>, text: &[u8]) -> Option<u32> {
    match ledger.named(poi, text) {
        Some(entry) => Some(entry.slot),
        None => None,
    }
}

/// The slot of the open entry, or of the last one.
fn slot_of(ledger: &Ledger, word: &str, sale: &Ident<40>, poi: &Ident<40>) -> Option<u32> {
    let entry = match word {
        "open" => ledger.open_at(poi),
        _ => ledger.last_of(sale, poi),
    };
    match entry {
        Some(entry) => Some(entry.slot),
        None => None,
    }
}

/// A number that a ledger has.
fn number_of(ledger: &Ledger, word: &str, poi: &Ident<40>) -> u64 {
    let tally = ledger.tally();
    match word {
        "number" => u64::from(ledger.last_number(poi)),
        "open_count" => u64::from(ledger.open_count()),
        "accepted" => u64::from(tally.accepted),
        "approved" => u64::from(tally.approved),
        "unresolved" => u64::from(tally.unresolved),
        _ => tally.sum,
    }
}

/// Whether the entry of this slot is reversed, or settled.
fn is_marked(ledger: &Ledger, word: &str, slot: u32) -> bool {
    match word {
        "reversed" => ledger.reversed(slot),
        _ => ledger.settled(slot),
    }
}

/// Appends what has the key with this ServiceID.
fn push_found(out: &mut String, ledger: &Ledger, service: &str) -> anyhow::Result<()> {
    match found(ledger, &key(service).context("no ServiceID")?) {
        Some(Found::Entry(entry)) => push_entry(out, &entry)?,
        Some(Found::Closed(closed)) => push_closed(out, &closed)?,
        None => out.push_str("> none\n")?,
    }
    Ok(())
}

/// Appends the slot of the entry that a text names at a terminal, or `none`.
fn push_named(out: &mut String, ledger: &Ledger, words: &str) -> anyhow::Result<()> {
    let (poi, text) = words.split_once(' ').unwrap_or((words, ""));
    let poi = Ident::of(poi.as_bytes()).context("no POIID")?;
    push_slot(out, named(ledger, &poi, text.as_bytes()))?;
    Ok(())
}

/// Appends whether the entry of a slot is reversed, or settled.
fn push_marked(out: &mut String, ledger: &Ledger, word: &str, slot: &str) -> anyhow::Result<()> {
    let is_marked = is_marked(ledger, word, slot.parse::<u32>()?);
    Ok(write!(out, "> {is_marked}\n")?)
}

/// Appends the totals of terminal `A`, its last trace number, or a slot or a number that a ledger has.
fn push_counted(out: &mut String, ledger: &Ledger, word: &str) -> anyhow::Result<()> {
    let sale = Ident::of(b"S").context("no SaleID")?;
    let poi = terminal().context("no POIID")?;
    match word {
        "totals" => Ok(push_totals_line(out, &totals(ledger, &poi))?),
        "open" | "last" => Ok(push_slot(out, slot_of(ledger, word, &sale, &poi))?),
        _ => Ok(write!(out, "> {}\n", number_of(ledger, word, &poi))?),
    }
}

/// Appends what a ledger says to a question.
fn push_said(out: &mut String, ledger: &Ledger, word: &str, words: &str) -> anyhow::Result<()> {
    match word {
        "reversed" | "settled" => push_marked(out, ledger, word, words),
        "found" => push_found(out, ledger, words),
        "named" => push_named(out, ledger, words),
        _ => push_counted(out, ledger, word),
    }
}

/// Appends what the ledger of the lines before says to a question.
pub fn push_on_ledger(
    alloc: Global,
    out: &mut String,
    before: &str,
    word: &str,
    words: &str,
) -> anyhow::Result<()> {
    if word == "refused" {
        return push_refused(alloc, out, before);
    }
    let ledger = ledger_of(alloc, before)?;
    push_said(out, &ledger, word, words)
}
