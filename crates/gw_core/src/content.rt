//! Whether a request asks for the same as what the records have under its key, or as what waits under it.
ghost use Rattle.std.specs.Prelude.{◌≡◌};
ghost use Rattle.gw_ledger.specs.History.{same_text};
ghost use Rattle.gw_ledger.specs.Transaction.{is_text, text_of};
ghost use Rattle.gw_owes.specs.Waits.{amount_meant, amount_of_original, asks_the_same, pay_the_same, payment_in, reversal_in, reverse_the_same};
ghost use Rattle.gw_owes.specs.Reversals.{original_of};
ghost use Rattle.gw_owes.specs.Content.{has_same_content, is_normal, is_payment_found, is_period_found, is_reversal_found, is_same_amount, is_same_payment, is_same_period, is_same_reversal, names_original, original_at};

use crate::days::asks_day;
use crate::reversals::{amount_in, original_of};
use gw_base::{Ident, Text, transaction_text};
use gw_ledger::{Entry, Found, Ledger};
use jrn_record::{Deal, How, Intent};
use sale_msg::{PaymentAsk, Period, ReversalAsk, SaleRequest};
use std::cmp::Ordering;

/// Whether the `PaymentType` is `Normal`, which an absent one means.
pub(crate) fn is_normal(payment_type: &Option<Text>) -> bool
    ensures { result ≡ is_normal payment_type.now }
{
    match payment_type {
        None => true,
        Some(payment_type) => payment_type.as_str().as_bytes() == b"Normal".as_slice(),
    }
}

/// Whether the type, the amount and the currency are those of the payment.
fn is_same_payment(ask: &PaymentAsk, intent: &Intent) -> bool
    ensures { result ≡ is_same_payment ask.now intent.now }
{
    is_normal(&ask.kind) && ask.amount == intent.amount && ask.currency == intent.currency.code()
}

/// Whether the amount is that of the reversal; an absent one means the original's, which the Intent has.
pub(crate) fn is_same_amount(reversed: Option<u64>, amount: u64) -> bool
    ensures { result ≡ is_same_amount reversed amount }
{
    match reversed {
        None => true,
        Some(reversed) => reversed == amount,
    }
}

/// Whether two texts have the same bytes.
fn is_same_text(a: &[u8], b: &[u8]) -> bool
    ensures { result ≡ same_text a.now b.now }
{
    match a.cmp(b) {
        Ordering::Equal => true,
        Ordering::Less | Ordering::Greater => false,
    }
}

/// Whether the text is the one that names the entry, which an open one hasn't.
fn has_text(entry: &Entry, text: &[u8]) -> bool
    ensures { result ≡ is_text text.now (text_of entry.now) }
{
    match &entry.result {
        None => false,
        Some(outcome) => is_same_text(
            text,
            transaction_text(outcome.number, outcome.receipt, entry.slot).as_slice(),
        ),
    }
}

/// Whether the text names the entry at this slot, where there is one.
fn names_original(ledger: &Ledger, text: &[u8], original: Option<u32>) -> bool
    ensures { result ≡ names_original text.now (original_at ledger.now.records original) }
{
    match original {
        None => false,
        Some(slot) => match ledger.entry(slot) {
            None => false,
            Some(entry) => has_text(&entry, text),
        },
    }
}

/// Whether the original, by the text that names it, and the amount are those of the reversal.
fn is_same_reversal(ledger: &Ledger, ask: &ReversalAsk, intent: &Intent) -> bool
    ensures { result ≡ is_same_reversal ledger.now.records ask.now intent.now }
{
    names_original(ledger, ask.transaction.as_bytes(), intent.original)
        && is_same_amount(ask.amount, intent.amount)
}

/// Whether the type is that of the reconciliation.
fn is_same_period(period: Period, how: How) -> bool
    ensures { result ≡ is_same_period period how }
{
    match (period, how) {
        (Period::SaleReconciliation, How::Sale) => true,
        (Period::AcquirerReconciliation, How::Acquirer) => true,
        _ => false,
    }
}

/// Whether a Payment has the content of what was found.
fn is_payment_found(ask: &PaymentAsk, found: &Found) -> bool
    ensures { result ≡ is_payment_found ask.now found.now }
{
    match found {
        Found::Entry(entry) => match entry.intent.what {
            Deal::Payment => is_same_payment(ask, &entry.intent),
            Deal::Reversal => false,
        },
        Found::Closed(_) => false,
    }
}

/// Whether a Reversal has the content of what was found.
fn is_reversal_found(ledger: &Ledger, ask: &ReversalAsk, found: &Found) -> bool
    ensures { result ≡ is_reversal_found ledger.now.records ask.now found.now }
{
    match found {
        Found::Entry(entry) => match entry.intent.what {
            Deal::Payment => false,
            Deal::Reversal => is_same_reversal(ledger, ask, &entry.intent),
        },
        Found::Closed(_) => false,
    }
}

/// Whether a Reconciliation has the content of what was found.
fn is_period_found(period: Period, found: &Found) -> bool
    ensures { result ≡ is_period_found period found.now }
{
    match found {
        Found::Entry(_) => false,
        Found::Closed(closed) => is_same_period(period, closed.settled.how),
    }
}

/// Whether the request is of the category of what was found, and asks for the same.
pub(crate) fn has_same_content(ledger: &Ledger, request: &SaleRequest, found: &Found) -> bool
    ensures { result ≡ has_same_content ledger.now.records request.now found.now }
{
    match request {
        SaleRequest::Payment(ask) => is_payment_found(ask, found),
        SaleRequest::Reversal(ask) => is_reversal_found(ledger, ask, found),
        SaleRequest::Reconciliation(period) => is_period_found(*period, found),
        SaleRequest::Login
        | SaleRequest::Logout
        | SaleRequest::Abort(_)
        | SaleRequest::Status(_)
        | SaleRequest::Display(_)
        | SaleRequest::Print(_)
        | SaleRequest::Diagnosis => false,
    }
}

/// Whether both are payments: of the type `Normal`, and of the same amount and currency.
fn pay_the_same(request: &SaleRequest, waiting: &SaleRequest) -> bool
    ensures { result ≡ pay_the_same (payment_in request.now) (payment_in waiting.now) }
{
    match request {
        SaleRequest::Payment(ask) => match waiting {
            SaleRequest::Payment(waiting) => {
                is_normal(&ask.kind)
                    && (ask.amount == waiting.amount && ask.currency == waiting.currency)
            }
            SaleRequest::Login
            | SaleRequest::Logout
            | SaleRequest::Reversal(_)
            | SaleRequest::Abort(_)
            | SaleRequest::Status(_)
            | SaleRequest::Reconciliation(_)
            | SaleRequest::Display(_)
            | SaleRequest::Print(_)
            | SaleRequest::Diagnosis => false,
        },
        SaleRequest::Login
        | SaleRequest::Logout
        | SaleRequest::Reversal(_)
        | SaleRequest::Abort(_)
        | SaleRequest::Status(_)
        | SaleRequest::Reconciliation(_)
        | SaleRequest::Display(_)
        | SaleRequest::Print(_)
        | SaleRequest::Diagnosis => false,
    }
}

/// The amount of an original, where there is one.
fn amount_of_original(original: &Option<Entry>) -> u64
    ensures { result ≡ amount_of_original original.now }
{
    match original {
        None => 0,
        Some(original) => amount_in(&original.result),
    }
}

/// The amount that a reversal is to reverse; an absent one means its original's.
fn amount_meant(ledger: &Ledger, poi: &Ident<40>, ask: &ReversalAsk) -> u64
    ensures { result ≡ amount_meant ask.now.amount (amount_of_original (original_of ledger.now.records poi.now ask.now)) }
{
    match ask.amount {
        None => amount_of_original(&original_of(ledger, poi, ask)),
        Some(amount) => amount,
    }
}

/// Whether both are reversals: of the original with the same text, and of the same amount.
fn reverse_the_same(
    ledger: &Ledger,
    poi: &Ident<40>,
    request: &SaleRequest,
    waiting: &SaleRequest,
) -> bool
    ensures { result ≡ reverse_the_same ledger.now.records poi.now (reversal_in request.now) (reversal_in waiting.now) }
{
    match request {
        SaleRequest::Reversal(ask) => match waiting {
            SaleRequest::Reversal(waiting) => {
                ask.transaction == waiting.transaction
                    && amount_meant(ledger, poi, ask) == amount_meant(ledger, poi, waiting)
            }
            SaleRequest::Login
            | SaleRequest::Logout
            | SaleRequest::Payment(_)
            | SaleRequest::Abort(_)
            | SaleRequest::Status(_)
            | SaleRequest::Reconciliation(_)
            | SaleRequest::Display(_)
            | SaleRequest::Print(_)
            | SaleRequest::Diagnosis => false,
        },
        SaleRequest::Login
        | SaleRequest::Logout
        | SaleRequest::Payment(_)
        | SaleRequest::Abort(_)
        | SaleRequest::Status(_)
        | SaleRequest::Reconciliation(_)
        | SaleRequest::Display(_)
        | SaleRequest::Print(_)
        | SaleRequest::Diagnosis => false,
    }
}

/// Whether a request at this POIID asks for the same as one that waits.
pub(crate) fn asks_the_same(
    ledger: &Ledger,
    poi: &Ident<40>,
    request: &SaleRequest,
    waiting: &SaleRequest,
) -> bool
    ensures { result ≡ asks_the_same ledger.now.records poi.now request.now waiting.now }
{
    pay_the_same(request, waiting)
        || (reverse_the_same(ledger, poi, request, waiting)
            || (asks_day(request) && asks_day(waiting)))
}
