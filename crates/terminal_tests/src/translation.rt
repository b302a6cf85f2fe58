//! What Intents are translated to for terminals, and the conditions of result codes.
use crate::commands::push_command_line;
use anyhow::Context;
use case_files::{body_of, done};
use gw_base::{Condition, Currency, Ident, Pt, Text};
use gw_ledger::Entry;
use jrn_record::{Deal, Intent, Outcome, Record, from_body};
use std::alloc::{AllocError, Global};
use xlate::{command_of, condition_of};
use zvt_msg::Command;

/// A terminal with password 123456.
fn terminal(alloc: Global) -> Option<Pt> {
    Some(Pt {
        poi: Ident::of(b"T1")?,
        address: Text::new(String::new(alloc)),
        password: [0x12, 0x34, 0x56],
        currency: Currency::Eur,
        config: 0,
        none: 0,
        answer: 5,
        command: 180,
    })
}

/// What is asked for an Intent of a terminal, where its original is this payment, the first of the journal.
fn asked(intent: &Intent, payment: &Intent, outcome: &Outcome, pt: &Pt) -> Option<Command> {
    let original = Entry {
        slot: 0,
        intent: *payment,
        result: Some(*outcome),
    };
    match intent.what {
        Deal::Payment => Some(command_of(intent, None, pt)),
        Deal::Reversal if outcome.approved && intent.original == Some(0) => {
            Some(command_of(intent, Some(&original), pt))
        }
        Deal::Reversal => None,
    }
}

/// What is asked for these records: an Intent, and the Intent and the Outcome of its original.
fn asked_for(
    alloc: Global,
    intent: &[u8; 255],
    payment: &[u8; 255],
    outcome: &[u8; 255],
) -> Option<Command> {
    let pt = terminal(alloc)?;
    let Ok(Record::Intent(intent)) = from_body(intent) else {
        return None;
    };
    let Ok(Record::Intent(payment)) = from_body(payment) else {
        return None;
    };
    let Ok(Record::Outcome(outcome)) = from_body(outcome) else {
        return None;
    };
    asked(&intent, &payment, &outcome, &pt)
}

/// The bodies of an Intent, and after ` / ` of its Outcome.
fn original_of(
    alloc: Global,
    before: &str,
    records: &str,
) -> anyhow::Result<([u8; 255], [u8; 255])> {
    let (payment, outcome) = records.split_once(" / ").context("no Outcome")?;
    let payment = body_of(alloc, before, payment)?;
    let outcome = body_of(alloc, before, outcome)?;
    Ok((payment, outcome))
}

/// Appends the command for an Intent; after ` / ` come the Intent and the Outcome of its original.
pub fn push_command_for(
    alloc: Global,
    out: &mut String,
    before: &str,
    words: &str,
) -> anyhow::Result<()> {
    let (intent, original) = words.split_once(" / ").context("no original")?;
    let intent = body_of(alloc, before, intent)?;
    let (payment, outcome) = original_of(alloc, before, original)?;
    match asked_for(alloc, &intent, &payment, &outcome) {
        Some(command) => done(push_command_line(out, &command)),
        None => anyhow::bail!("no command"),
    }
}

/// Appends the result codes that have another condition than a refusal, and the condition after a stop where that is another.
pub fn push_conditions(out: &mut String) -> Result<(), AllocError> {
    for result_code in 0..=255 {
        let condition = condition_of(result_code, false);
        let stopped = condition_of(result_code, true);
        if condition != Condition::Refusal || stopped != Condition::Refusal {
            write!(
                out,
                "> {result_code:02x} {} {}\n",
                condition.name(),
                stopped.name()
            )?;
        }
    }
    Ok(())
}
