//! Lines of payments, reversals, reconciliations and Aborts: what a till asks, which records are kept, and what the till gets.
//!
//! They are those of till S1 at terminal T1, in euros, at 2025-03-07T10:11:04Z. A ServiceID and a slot are one digit.
use crate::display_lines::push_displayed;
use crate::tables::{halves, push_form, push_times};
use std::alloc::{AllocError, Global};
use std::test::Fail;

/// A payment: its ServiceID and its amount.
const PAYMENT: &str =
    "{\"SaleToPOIRequest\":{\"MessageHeader\":{\"ProtocolVersion\":\"3.0\",\"MessageClass\":\"Service\",\"MessageCategory\":\"Payment\",\
    \"MessageType\":\"Request\",\"ServiceID\":\"%\",\"SaleID\":\"S1\",\"POIID\":\"T1\"},\"PaymentRequest\":{\"SaleData\":\
    {\"SaleTransactionID\":{\"TransactionID\":\"27908\",\"TimeStamp\":\"2025-03-07T10:11:04+00:00\"}},\"PaymentTransaction\":\
    {\"AmountsReq\":{\"Currency\":\"EUR\",\"RequestedAmount\":%}}}}}\n";

/// A reversal: its ServiceID and the TransactionID of the payment.
const REVERSAL: &str =
    "{\"SaleToPOIRequest\":{\"MessageHeader\":{\"ProtocolVersion\":\"3.0\",\"MessageClass\":\"Service\",\"MessageCategory\":\"Reversal\",\
    \"MessageType\":\"Request\",\"ServiceID\":\"%\",\"SaleID\":\"S1\",\"POIID\":\"T1\"},\"ReversalRequest\":\
    {\"OriginalPOITransaction\":{\"POITransactionID\":{\"TransactionID\":\"%\"}},\"ReversalReason\":\"MerchantCancel\"}}}\n";

/// The same, and the amount.
const REVERSAL_OF_AMOUNT: &str =
    "{\"SaleToPOIRequest\":{\"MessageHeader\":{\"ProtocolVersion\":\"3.0\",\"MessageClass\":\"Service\",\"MessageCategory\":\"Reversal\",\
    \"MessageType\":\"Request\",\"ServiceID\":\"%\",\"SaleID\":\"S1\",\"POIID\":\"T1\"},\"ReversalRequest\":\
    {\"OriginalPOITransaction\":{\"POITransactionID\":{\"TransactionID\":\"%\"}},\"ReversalReason\":\"MerchantCancel\",\
    \"ReversedAmount\":%}}}\n";

/// A reconciliation: its ServiceID and its type.
const RECONCILIATION: &str =
    "{\"SaleToPOIRequest\":{\"MessageHeader\":{\"ProtocolVersion\":\"3.0\",\"MessageClass\":\"Service\",\"MessageCategory\":\"Reconciliation\",\
    \"MessageType\":\"Request\",\"ServiceID\":\"%\",\"SaleID\":\"S1\",\"POIID\":\"T1\"},\"ReconciliationRequest\":\
    {\"ReconciliationType\":\"%\"}}}\n";

/// An Abort: its ServiceID, and that of the request that it is to stop.
const ABORT: &str =
    "{\"SaleToPOIRequest\":{\"MessageHeader\":{\"ProtocolVersion\":\"3.0\",\"MessageClass\":\"Service\",\"MessageCategory\":\"Abort\",\
    \"MessageType\":\"Request\",\"ServiceID\":\"%\",\"SaleID\":\"S1\",\"POIID\":\"T1\"},\"AbortRequest\":\
    {\"MessageReference\":{\"ServiceID\":\"%\"}}}}\n";

/// The line of the event that rejects an Abort: the till and the details.
const REJECTED: &str =
    "till % out '{\"SaleToPOIRequest\":{\"MessageHeader\":{\"ProtocolVersion\":\"3.0\",\"MessageClass\":\"Event\",\
    \"MessageCategory\":\"Event\",\"MessageType\":\"Notification\",\"SaleID\":\"S1\",\"POIID\":\"T1\"},\
    \"EventNotification\":{\"TimeStamp\":\"2025-03-07T10:11:04Z\",\"EventToNotify\":\"Reject\",\"EventDetails\":\"%\"}}}\n";

/// The question what became of a request: its ServiceID, and the request's.
const STATUS: &str =
    "{\"SaleToPOIRequest\":{\"MessageHeader\":{\"ProtocolVersion\":\"3.0\",\"MessageClass\":\"Service\",\
    \"MessageCategory\":\"TransactionStatus\",\"MessageType\":\"Request\",\"ServiceID\":\"%\",\"SaleID\":\"S1\",\"POIID\":\"T1\"},\
    \"TransactionStatusRequest\":{\"MessageReference\":{\"ServiceID\":\"%\"}}}}\n";

/// The header of a reply: its category and its ServiceID.
const HEADER: &str =
    "{\"MessageHeader\":{\"ProtocolVersion\":\"3.0\",\"MessageClass\":\"Service\",\"MessageCategory\":\"%\",\"MessageType\":\"Response\",\
    \"ServiceID\":\"%\",\"SaleID\":\"S1\",\"POIID\":\"T1\"}";

/// A payment that is approved: its result, its transaction and its amount.
const APPROVED: &str =
    "{\"Response\":{\"Result\":\"%\"},\"SaleData\":{\"SaleTransactionID\":{\"TransactionID\":\"27908\",\
    \"TimeStamp\":\"2025-03-07T10:11:04+00:00\"}},\"POIData\":{\"POITransactionID\":{\"TransactionID\":\"%\",\
    \"TimeStamp\":\"2025-03-07T10:11:04Z\"}},\"PaymentResult\":{\"AmountsResp\":{\"Currency\":\"EUR\",\"AuthorizedAmount\":%}}}";

/// A payment that is declined: its condition and its transaction.
const DECLINED: &str =
    "{\"Response\":{\"Result\":\"Failure\",\"ErrorCondition\":\"%\"},\"SaleData\":{\"SaleTransactionID\":{\"TransactionID\":\"27908\",\
    \"TimeStamp\":\"2025-03-07T10:11:04+00:00\"}},\"POIData\":{\"POITransactionID\":{\"TransactionID\":\"%\",\
    \"TimeStamp\":\"2025-03-07T10:11:04Z\"}}}";

/// A reversal that is approved: its result, its transaction and its amount.
const REVERSED: &str =
    "{\"Response\":{\"Result\":\"%\"},\"POIData\":{\"POITransactionID\":{\"TransactionID\":\"%\",\
    \"TimeStamp\":\"2025-03-07T10:11:04Z\"}},\"ReversedAmount\":%}";

/// A reversal that is declined: its condition and its transaction.
const NOT_REVERSED: &str =
    "{\"Response\":{\"Result\":\"Failure\",\"ErrorCondition\":\"%\"},\"POIData\":{\"POITransactionID\":\
    {\"TransactionID\":\"%\",\"TimeStamp\":\"2025-03-07T10:11:04Z\"}}}";

/// A reconciliation: its type, and the counts and amounts of payments and of reversals.
const RECONCILED: &str =
    "{\"Response\":{\"Result\":\"Success\"},\"ReconciliationType\":\"%\",\"TransactionTotals\":[{\"PaymentInstrumentType\":\"Card\",\
    \"PaymentCurrency\":\"EUR\",\"PaymentTotals\":[{\"TransactionType\":\"Debit\",\"TransactionCount\":%,\"TransactionAmount\":%},\
    {\"TransactionType\":\"ReverseDebit\",\"TransactionCount\":%,\"TransactionAmount\":%}]}]}";

/// The fields of the Intent of a payment and the gate after it, in hexadecimal and with their sizes: the digit of its ServiceID, its amount, and
/// the trace number before. Zeros come after a field, and before one that begins with `<`.
const INTENT: &str =
    "0101 2;025331 41;025431 41;013% 11;053237393038 81;19323032352d30332d30375431303a31313a30342b30303a3030 36;<% 6;0978 2;<% 3;\
    ffffffff 4;0000000067cac638 8; 21";

/// The same of the Intent of a reversal: the digit of its ServiceID, its amount, the trace number before, and the slot of the payment.
const REVERSAL_INTENT: &str =
    "0102 2;025331 41;025431 41;013% 11; 81; 36;<% 6;0978 2;<% 3;<% 4;0000000067cac638 8; 21";

/// The same of an Outcome that approves: the slot of its Intent, the trace number, the receipt number and the amount.
const APPROVAL: &str = "0201 2;<% 4;<% 3;<% 2;<% 6; 1;0000000067cac638 8; 230";

/// The same of one that declines: the slot of its Intent, and the reason.
const DECLINE: &str = "0202 2;<% 4; 11;<% 1;0000000067cac638 8; 230";

/// The same of a Settled: the digit of its kind, and that of its ServiceID.
const SETTLED: &str = "030% 2;025331 41;025431 41;013% 11;0978 2;0000000067cac638 8; 151";

/// Appends a form, in which these words take the places of its `%`.
fn push_words(text: &mut String, form: &str, words: &str) -> Result<(), AllocError> {
    let mut words = words.split(' ');
    for (number, part) in form.split('%').enumerate() {
        if number > 0 {
            if let Some(word) = words.next() {
                text.push_str(word)?;
            }
        }
        text.push_str(part)?;
    }
    Ok(())
}

/// Appends a field: its digits, and zeros up to its size in bytes.
fn push_field(text: &mut String, field: &str) -> Result<(), Fail> {
    let (digits, size) = halves(field);
    let count = size.parse::<usize>()?.saturating_mul(2);
    match digits.strip_prefix("<") {
        Some(last) => {
            push_times(text, count.saturating_sub(last.len()), "0")?;
            text.push_str(last)?;
        }
        None => {
            text.push_str(digits)?;
            push_times(text, count.saturating_sub(digits.len()), "0")?;
        }
    }
    Ok(())
}

/// The places of a slot's gate and body.
fn places(slot: &str) -> (&'static str, &'static str) {
    match slot {
        "0" => ("0", "1"),
        "1" => ("256", "257"),
        "2" => ("512", "513"),
        "3" => ("768", "769"),
        "4" => ("1024", "1025"),
        "5" => ("1280", "1281"),
        _ => ("1536", "1537"),
    }
}

/// Appends the line of the write of a record to this place: its form, and its words.
fn push_body(
    alloc: Global,
    log: &mut String,
    place: &str,
    form: &str,
    words: &str,
) -> Result<(), Fail> {
    let mut fields = String::new(alloc);
    push_words(&mut fields, form, words)?;
    push_form(log, "wrote % ", &[place])?;
    for field in fields.split(';') {
        push_field(log, field)?;
    }
    log.push('\n')?;
    Ok(())
}

/// Appends the line of the first write for a record: its word, and its slot with its words.
fn push_first(alloc: Global, log: &mut String, word: &str, record: &str) -> Result<(), Fail> {
    let (slot, words) = halves(record);
    let (_, body) = places(slot);
    match word {
        "intent" => push_body(alloc, log, body, INTENT, words),
        "reversal" => push_body(alloc, log, body, REVERSAL_INTENT, words),
        "approved" => push_body(alloc, log, body, APPROVAL, words),
        "settled" => push_body(alloc, log, body, SETTLED, words),
        _ => push_body(alloc, log, body, DECLINE, words),
    }
}

/// Appends the lines that keep a record.
fn push_kept(alloc: Global, log: &mut String, word: &str, record: &str) -> Result<(), Fail> {
    let (slot, _) = halves(record);
    let (gate, _) = places(slot);
    push_first(alloc, log, word, record)?;
    push_form(log, "synced\nwrote % a5\nsynced\n", &[gate])?;
    Ok(())
}

/// Appends the beginning of a reply of this category to a till, whose ServiceID is given.
fn push_header(
    log: &mut String,
    category: &str,
    till: &str,
    service: &str,
) -> Result<(), AllocError> {
    push_form(log, "till % out '{\"SaleToPOIResponse\":", &[till])?;
    push_form(log, HEADER, &[category, service])?;
    push_form(log, ",\"%Response\":", &[category])
}

/// The form of the body of the reply to a request of this category that has ended, by the word of its result.
fn form_of_end(category: &str, word: &str) -> &'static str {
    let is_done = word == "Success" || word == "Partial";
    match category {
        "Reversal" if is_done => REVERSED,
        "Reversal" => NOT_REVERSED,
        "Reconciliation" => RECONCILED,
        _ if is_done => APPROVED,
        _ => DECLINED,
    }
}

/// Appends the body of that reply.
fn push_end(log: &mut String, category: &str, end: &str) -> Result<(), AllocError> {
    let (word, _) = halves(end);
    push_words(log, form_of_end(category, word), end)
}

/// Appends the reply to it.
fn push_ended(log: &mut String, category: &str, reply: &str) -> Result<(), AllocError> {
    let (till, rest) = halves(reply);
    let (service, end) = halves(rest);
    push_header(log, category, till, service)?;
    push_end(log, category, end)?;
    log.push_str("}}\n")
}

/// Appends the reply that repeats it.
fn push_repeated(log: &mut String, category: &str, reply: &str) -> Result<(), AllocError> {
    let (till, rest) = halves(reply);
    let (service, repeated) = halves(rest);
    let (reference, end) = halves(repeated);
    push_header(log, "TransactionStatus", till, service)?;
    log.push_str("{\"Response\":{\"Result\":\"Success\"},\"RepeatedMessageResponse\":")?;
    push_form(log, HEADER, &[category, reference])?;
    push_form(
        log,
        ",\"RepeatedResponseMessageBody\":{\"%Response\":",
        &[category],
    )?;
    push_end(log, category, end)?;
    log.push_str("}}}}}\n")
}

/// Appends a failure.
fn push_failure(log: &mut String, reply: &str) -> Result<(), AllocError> {
    let (category, rest) = halves(reply);
    let (till, failure) = halves(rest);
    let (service, condition) = halves(failure);
    push_header(log, category, till, service)?;
    push_form(
        log,
        "{\"Response\":{\"Result\":\"Failure\",\"ErrorCondition\":\"%\"}}}}\n",
        &[condition],
    )
}

/// Appends the event that rejects an Abort.
fn push_rejected(log: &mut String, event: &str) -> Result<(), AllocError> {
    let (till, details) = halves(event);
    push_form(log, REJECTED, &[till, details])
}

/// Appends the message of a line that asks for a payment, a reversal, a reconciliation, an Abort or what became of one, without the line's
/// till.
pub(crate) fn push_asked(text: &mut String, word: &str, words: &str) -> Result<(), AllocError> {
    match word {
        "pay" => push_words(text, PAYMENT, words),
        "reverse" => push_words(text, REVERSAL, words),
        "reverse_amount" => push_words(text, REVERSAL_OF_AMOUNT, words),
        "reconcile" => push_words(text, RECONCILIATION, words),
        "abort" => push_words(text, ABORT, words),
        _ => push_words(text, STATUS, words),
    }
}

/// Appends a line of the log as its word says.
pub fn push_paid(alloc: Global, log: &mut String, line: &str) -> Result<(), Fail> {
    let (word, rest) = halves(line);
    match word {
        "first" => {
            let (record_word, record) = halves(rest);
            push_first(alloc, log, record_word, record)?;
        }
        "intent" | "reversal" | "approved" | "declined" | "settled" => {
            push_kept(alloc, log, word, rest)?;
        }
        "result" => push_ended(log, "Payment", rest)?,
        "reversed" => push_ended(log, "Reversal", rest)?,
        "totals" => push_ended(log, "Reconciliation", rest)?,
        "repeats" => push_repeated(log, "Payment", rest)?,
        "repeats_reversed" => push_repeated(log, "Reversal", rest)?,
        "repeats_totals" => push_repeated(log, "Reconciliation", rest)?,
        "rejected" => push_rejected(log, rest)?,
        "fails" => push_failure(log, rest)?,
        _ => push_displayed(log, line)?,
    }
    Ok(())
}
