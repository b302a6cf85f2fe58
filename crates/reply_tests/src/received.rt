//! Replies as a till receives them.
use gw_base::Ident;
use json_text::read;
use sale_seen::{ReplySeen, read_reply};
use std::alloc::{AllocError, Global};

/// A reply of class Service of this category, with this body.
fn reply(alloc: Global, category: &str, body: &str) -> Result<String, AllocError> {
    format!(in alloc;
        "{{\"SaleToPOIResponse\":{{\"MessageHeader\":{{\"ProtocolVersion\":\"3.0\",\"MessageClass\":\"Service\",\"MessageCategory\":\"{category}\",\"MessageType\":\"Response\",\"ServiceID\":\"1\",\"SaleID\":\"S1\",\"POIID\":\"T1\"}},\"{category}Response\":{body}}}}}"
    )
}

/// The text that the words stand for.
fn text_of(alloc: Global, word: &str, words: &str) -> Result<String, AllocError> {
    let (first, rest) = words.split_once(' ').unwrap_or((words, ""));
    match word {
        "reply" => reply(alloc, first, rest),
        "transaction" => {
            let body = format!(in alloc;
                "{{\"Response\":{{\"Result\":\"Success\"}},\"POIData\":{{\"POITransactionID\":{{\"TransactionID\":\"{words}\"}}}}}}"
            )?;
            reply(alloc, "Reversal", body.as_str())
        }
        "reversed_amount" => {
            let body = format!(in alloc;
                "{{\"Response\":{{\"Result\":\"Success\"}},\"POIData\":{{\"POITransactionID\":{{\"TransactionID\":\"000123-0017-0\"}}}},\"ReversedAmount\":{words}}}"
            )?;
            reply(alloc, "Reversal", body.as_str())
        }
        _ => String::from_str(alloc, words),
    }
}

/// Appends what is read of a reply; what isn't there is `-`.
fn push_received(out: &mut String, reply: &ReplySeen) -> Result<(), AllocError> {
    let condition = match reply.condition {
        None => "-",
        Some(condition) => condition.name(),
    };
    write!(
        out,
        "> {} {} {condition}",
        reply.category,
        reply.result.name()
    )?;
    match &reply.transaction {
        None => out.push_str(" -")?,
        Some(text) => push_transaction(out, text.as_slice())?,
    }
    match reply.minor {
        None => out.push_str(" -\n"),
        Some(units) => write!(out, " {units}\n"),
    }
}

fn push_transaction(out: &mut String, text: &[u8]) -> Result<(), AllocError> {
    match Ident::<80>::of(text) {
        None => out.push_str(" no text"),
        Some(text) => write!(out, " {text}"),
    }
}

/// Appends what is read of a text, or the fault.
fn push_read(alloc: Global, out: &mut String, text: &str) -> Result<(), AllocError> {
    let Ok(tree) = read(alloc, text.as_bytes()) else {
        return out.push_str("> no JSON\n");
    };
    match read_reply(&tree) {
        Ok(reply) => push_received(out, &reply),
        Err(fault) => write!(out, "> {fault}\n"),
    }
}

/// Appends the result of a question on a reply.
pub fn push_on_reply(
    alloc: Global,
    out: &mut String,
    word: &str,
    words: &str,
) -> Result<(), AllocError> {
    let text = text_of(alloc, word, words)?;
    push_read(alloc, out, text.as_str())
}
