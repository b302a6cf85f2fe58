//! What entries are translated to for tills: replies, and the texts of transactions.
ghost use Rattle.std.specs.Prelude.{IfSome};
ghost use Rattle.xlate.specs.Finished.{IsResolved};

use crate::replies::push_written;
use anyhow::Context;
use arrayvec::ArrayVec;
use case_files::{body_of, done};
use gw_base::Currency;
use gw_ledger::{Closed, Entry, Found, Totals};
use jrn_record::{Record, from_body};
use sale_reply::SaleReply;
use std::alloc::Global;
use std::str::{self, Split};
use xlate::{reply_of, transaction_text};

/// The entry of these records, in this slot.
fn entry_of(slot: u32, intent: &[u8; 255], outcome: &[u8; 255]) -> Option<Entry>
    ensures { IfSome result IsResolved }
{
    let Ok(Record::Intent(intent)) = from_body(intent) else {
        return None;
    };
    let Ok(Record::Outcome(outcome)) = from_body(outcome) else {
        return None;
    };
    Some(Entry {
        slot,
        intent,
        result: Some(outcome),
    })
}

/// The reply to the entry of these records, in this slot.
fn reply_to(slot: u32, intent: &[u8; 255], outcome: &[u8; 255]) -> Option<SaleReply<'static>> {
    match entry_of(slot, intent, outcome) {
        Some(entry) => Some(reply_of(&Found::Entry(entry))),
        None => None,
    }
}

/// The text of the entry of these records, in this slot.
fn text_of(slot: u32, intent: &[u8; 255], outcome: &[u8; 255]) -> Option<ArrayVec<u8, 24>> {
    match entry_of(slot, intent, outcome) {
        Some(entry) => Some(transaction_text(&entry)),
        None => None,
    }
}

/// Appends the reply to the entry of these records.
fn push_reply_to(
    alloc: Global,
    out: &mut String,
    slot: u32,
    intent: &[u8; 255],
    outcome: &[u8; 255],
) -> anyhow::Result<()> {
    match reply_to(slot, intent, outcome) {
        Some(reply) => push_written(alloc, out, &reply),
        None => anyhow::bail!("no entry"),
    }
}

/// Appends the text of the entry of these records.
fn push_text_of(
    out: &mut String,
    slot: u32,
    intent: &[u8; 255],
    outcome: &[u8; 255],
) -> anyhow::Result<()> {
    let text = text_of(slot, intent, outcome).context("no entry")?;
    let text = str::from_utf8(text.as_slice())?;
    done(write!(out, "> {text}\n"))
}

/// The bodies of an Intent, and after ` / ` of an Outcome.
fn bodies_of(alloc: Global, before: &str, records: &str) -> anyhow::Result<([u8; 255], [u8; 255])> {
    let (intent, outcome) = records.split_once(" / ").context("no records")?;
    let intent = body_of(alloc, before, intent)?;
    let outcome = body_of(alloc, before, outcome)?;
    Ok((intent, outcome))
}

/// The slot of words, and after ` / ` the bodies of the Intent and of the Outcome.
fn records_of(
    alloc: Global,
    before: &str,
    words: &str,
) -> anyhow::Result<(u32, [u8; 255], [u8; 255])> {
    let (slot, records) = words.split_once(" / ").context("no slot")?;
    let slot = slot.parse::<u32>()?;
    let (intent, outcome) = bodies_of(alloc, before, records)?;
    Ok((slot, intent, outcome))
}

/// Appends the reply to an entry.
pub fn push_reply(
    alloc: Global,
    out: &mut String,
    before: &str,
    words: &str,
) -> anyhow::Result<()> {
    let (slot, intent, outcome) = records_of(alloc, before, words)?;
    push_reply_to(alloc, out, slot, &intent, &outcome)
}

/// Appends the text of an entry.
pub fn push_text(alloc: Global, out: &mut String, before: &str, words: &str) -> anyhow::Result<()> {
    let (slot, intent, outcome) = records_of(alloc, before, words)?;
    push_text_of(out, slot, &intent, &outcome)
}

/// The next two numbers of some words: a count and a sum.
fn next_sum(numbers: &mut Split<'_, char>) -> Option<(u32, u64)> {
    let count = numbers.next()?.parse().ok()?;
    let sum = numbers.next()?.parse().ok()?;
    Some((count, sum))
}

/// Totals in euros of words: the count and the sum of payments, and of reversals.
fn totals_of(words: &str) -> Option<Totals> {
    let mut numbers = words.split(' ');
    let debit = next_sum(&mut numbers)?;
    let reversed = next_sum(&mut numbers)?;
    Some(Totals {
        debit,
        reversed,
        currency: Currency::Eur,
    })
}

/// The reply to a reconciliation in this slot with these totals, where the record is one.
fn reply_to_closed(slot: u32, body: &[u8; 255], totals: Totals) -> Option<SaleReply<'static>> {
    let Ok(Record::Settled(settled)) = from_body(body) else {
        return None;
    };
    Some(reply_of(&Found::Closed(Closed {
        slot,
        settled,
        totals,
    })))
}

/// The body of a record, and after ` / ` totals.
fn closed_of(alloc: Global, before: &str, words: &str) -> anyhow::Result<([u8; 255], Totals)> {
    let (record, totals) = words.split_once(" / ").context("no totals")?;
    let body = body_of(alloc, before, record)?;
    let totals = totals_of(totals).context("no totals")?;
    Ok((body, totals))
}

/// Appends the reply to a reconciliation: its slot, its record and its totals.
pub fn push_closed(
    alloc: Global,
    out: &mut String,
    before: &str,
    words: &str,
) -> anyhow::Result<()> {
    let (slot, rest) = words.split_once(" / ").context("no slot")?;
    let slot = slot.parse::<u32>()?;
    let (body, totals) = closed_of(alloc, before, rest)?;
    match reply_to_closed(slot, &body, totals) {
        Some(reply) => push_written(alloc, out, &reply),
        None => anyhow::bail!("no reconciliation"),
    }
}
