//! Records of the journal, read and written.
use case_files::body_of;
use gw_base::{Condition, Ident};
use jrn_record::{Deal, How, Intent, Outcome, Record, Settled, from_body, to_body};
use std::alloc::{AllocError, Global};

fn push_name<const N: usize>(out: &mut String, name: &Option<Ident<N>>) -> Result<(), AllocError> {
    match name {
        Some(name) => write!(out, " {name}"),
        None => out.push_str(" -"),
    }
}

fn deal_name(deal: Deal) -> &'static str {
    match deal {
        Deal::Payment => "payment",
        Deal::Reversal => "reversal",
    }
}

/// Appends the key of an Intent, and what the till calls the transaction.
fn push_asked(out: &mut String, intent: &Intent) -> Result<(), AllocError> {
    let deal = deal_name(intent.what);
    write!(
        out,
        "{deal} {} {} {}",
        intent.sale, intent.poi, intent.service
    )?;
    push_name(out, &intent.transaction)?;
    push_name(out, &intent.stamp)
}

fn push_intent(out: &mut String, intent: &Intent) -> Result<(), AllocError> {
    let number = intent.currency.number();
    push_asked(out, intent)?;
    write!(
        out,
        " {} currency {number} before {}",
        intent.amount, intent.before
    )?;
    if let Some(slot) = intent.original {
        write!(out, " original {slot}")?;
    }
    write!(out, " at {}", intent.moment)
}

fn condition_name(condition: Option<Condition>) -> &'static str {
    match condition {
        Some(condition) => condition.name(),
        None => "-",
    }
}

fn push_outcome(out: &mut String, outcome: &Outcome) -> Result<(), AllocError> {
    let Outcome {
        slot,
        number,
        receipt,
        amount,
        ..
    } = outcome;
    let condition = condition_name(outcome.condition);
    out.push_str(if outcome.approved {
        "approved"
    } else {
        "declined"
    })?;
    write!(
        out,
        " slot {slot} trace {number} receipt {receipt} amount {amount} {condition}"
    )?;
    write!(out, " at {}", outcome.moment)
}

fn push_settled(out: &mut String, settled: &Settled) -> Result<(), AllocError> {
    let Settled {
        sale,
        poi,
        service,
        moment,
        ..
    } = settled;
    let number = settled.currency.number();
    out.push_str(match settled.how {
        How::Sale => "settled by the till",
        How::Acquirer => "settled by the acquirer",
    })?;
    write!(out, " {sale} {poi} {service} currency {number} at {moment}")
}

fn push_record(out: &mut String, record: &Record) -> Result<(), AllocError> {
    match record {
        Record::Intent(intent) => push_intent(out, intent),
        Record::Outcome(outcome) => push_outcome(out, outcome),
        Record::Settled(settled) => push_settled(out, settled),
    }
}

/// Appends the record of a body, and whether it is written as this body; or the offset of the fault.
fn push_body(out: &mut String, body: &[u8; 255]) -> Result<(), AllocError> {
    match from_body(body) {
        Ok(record) => {
            out.push_str("> ")?;
            push_record(out, &record)?;
            let same = to_body(&record).as_slice() == body.as_slice();
            out.push_str(if same {
                "\n> written so\n"
            } else {
                "\n> written otherwise\n"
            })
        }
        Err(fault) => write!(out, "> fault at {}\n", fault.at),
    }
}

/// Appends the record of some words.
pub fn push_read(alloc: Global, out: &mut String, before: &str, words: &str) -> anyhow::Result<()> {
    let body = body_of(alloc, before, words)?;
    push_body(out, &body)?;
    Ok(())
}
