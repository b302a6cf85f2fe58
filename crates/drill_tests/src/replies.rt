//! What the tills of a drill have got for its payments, and whether that is true of the books.
use crate::payments::{Payment, entry_of, payment_of, times_booked};
use gw_base::Condition;
use gw_site::Turn;
use json_text::{Json, read};
use pt_core::BookEntry;
use sale_frame::framed_payload;
use sale_msg::read_header;
use sale_seen::{ReplySeen, read_reply};
use sim_site::SimSite;
use std::alloc::Global;
use std::str;
use std::test::Fail;

/// Whether a TransactionID begins with the trace number of an entry and its receipt number.
fn begins_with_entry(transaction: &str, entry: &BookEntry) -> Result<bool, Fail> {
    let (number, rest) = transaction.split_once("-").ok_or("no number")?;
    let (receipt, _) = rest.split_once("-").ok_or("no receipt")?;
    Ok(number.parse::<u32>()? == entry.number && receipt.parse::<u16>()? == entry.receipt)
}

/// Whether a reply names the entry of this payment, and its amount.
fn names_entry(site: &SimSite, payment: &Payment, reply: &ReplySeen) -> Result<bool, Fail> {
    let Some(transaction) = &reply.transaction else {
        return Ok(false);
    };
    let Some(entry) = entry_of(site, payment) else {
        return Ok(false);
    };
    let is_named = begins_with_entry(str::from_utf8(transaction.as_slice())?, entry)?;
    Ok(is_named && reply.minor == Some(payment.amount))
}

/// Whether what a reply says of a payment is true of the books: where it names an amount, the payment is booked, and this is its entry; else
/// it isn't booked, but that nothing is said where it is still in progress.
fn is_true(site: &SimSite, payment: &Payment, reply: &ReplySeen) -> Result<bool, Fail> {
    if reply.minor.is_some() {
        return names_entry(site, payment, reply);
    }
    let is_in_progress = reply.condition == Some(Condition::InProgress);
    Ok(is_in_progress || times_booked(site, payment) == 0)
}

/// The payment that a reply is about.
fn payment_in(tree: &Json) -> Result<&'static Payment, Fail> {
    let Ok(headed) = read_header(tree) else {
        return Err(Fail::from("no header"));
    };
    let service = headed.header.service.ok_or("no ServiceID")?;
    match payment_of(service.as_bytes()) {
        Some(payment) => Ok(payment),
        None => Err(Fail::from("no payment of the drill")),
    }
}

/// Whether a reply, which is read, is true of the books.
fn is_true_tree(site: &SimSite, tree: &Json) -> Result<bool, Fail> {
    let payment = payment_in(tree)?;
    match read_reply(tree) {
        Ok(reply) => is_true(site, payment, &reply),
        Err(_) => Err(Fail::from("no reply")),
    }
}

/// Whether a reply that was sent is true of the books.
fn is_true_frame(alloc: Global, site: &SimSite, bytes: &[u8]) -> Result<bool, Fail> {
    let payload = framed_payload(bytes).ok_or("no frame")?;
    match read(alloc, payload) {
        Ok(tree) => is_true_tree(site, &tree),
        Err(_) => Err(Fail::from("no JSON")),
    }
}

/// How many replies were sent, where each is true of the books; `None` where one isn't.
pub(crate) fn true_replies(alloc: Global, site: &SimSite) -> Result<Option<usize>, Fail> {
    let mut count: usize = 0;
    for turn in site.log().as_slice() {
        if let Turn::SentTill {
            bytes,
            ok: true,
            ..
        } = turn
        {
            if !is_true_frame(alloc, site, bytes.as_slice())? {
                return Ok(None);
            }
            count = count.saturating_add(1);
        }
    }
    Ok(Some(count))
}
