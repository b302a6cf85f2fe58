//! The reply to a finished request.
ghost use Rattle.std.specs.Prelude.{◌≡◌, ◌^◌, ◌<◌, Some, true, false};
ghost use Rattle.jrn_record.specs.Limits.{IsIntent, IsOutcome};
ghost use Rattle.jrn_record.specs.declared.records.Deal.TheVariants as deals;
ghost use Rattle.sale_reply.specs.Limits.{IsHeaderWithinLimits, IsMarkWithinLimits, IsToldWithinLimits, IsTotalWithinLimits, IsWithinLimits};
ghost use Rattle.xlate.specs.Finished.{IsFinished, IsResolved};
ghost use Rattle.xlate.specs.Reply.{deal_category, entry_body, header_of, transaction_mark, money_of, period_of, reply_for, reply_header, result_body_of, totals_body};

use gw_base::{Ident, Money};
use gw_ledger::{Closed, Entry, Found};
use jrn_record::{Deal, How, Intent, Outcome};
use sale_reply::{PoiMark, SaleReply, Told};
use sale_values::{Class, Header, Kind, Period};

/// The reply to a request that is finished: its result body under the header of its request's reply.
pub fn reply_of(found: &Found) -> SaleReply<'static>
    requires { IsFinished found.now }
    ensures reply { reply_for found.now ≡ Some result }
    ensures limits { IsWithinLimits result }
{
    SaleReply::Told {
        header: header_of(found),
        told: result_body_of(found),
    }
}

/// The header of the reply to a finished request.
fn header_of(found: &Found) -> Header
    ensures header { result ≡ header_of found.now }
    ensures limits { IsHeaderWithinLimits result }
{
    match found {
        Found::Entry(entry) => {
            let intent = &entry.intent;
            reply_header(
                deal_category(intent.what),
                &intent.sale,
                &intent.poi,
                &intent.service,
            )
        }
        Found::Closed(closed) => {
            let settled = &closed.settled;
            reply_header(
                Ident::known(b"Reconciliation"),
                &settled.sale,
                &settled.poi,
                &settled.service,
            )
        }
    }
}

/// The category of what was asked of the terminal.
fn deal_category(what: Deal) -> Ident<40>
    ensures { result ≡ deal_category what }
{
    match what {
        Deal::Payment => Ident::known(b"Payment"),
        Deal::Reversal => Ident::known(b"Reversal"),
    }
}

/// The header of a reply of this category to the request with these texts.
fn reply_header(
    category: Ident<40>,
    sale: &Ident<40>,
    poi: &Ident<40>,
    service: &Ident<10>,
) -> Header
    ensures header { result ≡ reply_header category sale.now poi.now service.now }
    ensures limits { IsHeaderWithinLimits result }
{
    // The proof takes the limits of an identifier from these calls.
    let _category = category.as_bytes();
    let (_sale, _poi, _service) = (sale.as_bytes(), poi.as_bytes(), service.as_bytes());
    Header {
        class: Class::Service,
        category,
        kind: Kind::Response,
        service: Some(*service),
        device: None,
        sale: *sale,
        poi: *poi,
    }
}

/// The result body of a finished request.
fn result_body_of(found: &Found) -> Told
    requires { IsFinished found.now }
    ensures body { result_body_of found.now ≡ Some result }
    ensures limits { IsToldWithinLimits result }
{
    match found {
        Found::Entry(entry) => entry_body(entry),
        Found::Closed(closed) => totals_body(closed),
    }
}

/// The result body of a resolved entry.
fn entry_body(entry: &Entry) -> Told
    requires { IsResolved entry.now }
    ensures body { result_body_of (Found.Entry entry.now) ≡ Some result }
    ensures limits { IsToldWithinLimits result }
{
    match &entry.result {
        Some(outcome) => match entry.intent.what {
            Deal::Payment => payment_body(entry.slot, &entry.intent, outcome),
            Deal::Reversal => reversal_body(entry.slot, &entry.intent, outcome),
        },
        None => unreachable!(),
    }
}

/// The result body of a payment.
fn payment_body(slot: u32, intent: &Intent, outcome: &Outcome) -> Told
    requires what { intent.now.what ≡ deals.Payment }
    requires intent { IsIntent intent.now }
    requires outcome { IsOutcome outcome.now }
    ensures body { entry_body deals.Payment outcome.now.approved slot intent.now outcome.now ≡ Some result }
    ensures limits { IsToldWithinLimits result }
{
    match (&intent.transaction, &intent.stamp) {
        (Some(transaction), Some(stamp)) => paid_body(slot, transaction, stamp, intent, outcome),
        _ => unreachable!(),
    }
}

/// The result body of a payment with these texts of its till.
fn paid_body(
    slot: u32,
    transaction: &Ident<80>,
    stamp: &Ident<35>,
    intent: &Intent,
    outcome: &Outcome,
) -> Told
    requires transaction { intent.now.transaction ≡ Some transaction.now }
    requires stamp { intent.now.stamp ≡ Some stamp.now }
    requires outcome { IsOutcome outcome.now }
    ensures body { entry_body deals.Payment outcome.now.approved slot intent.now outcome.now ≡ Some result }
    ensures limits { IsToldWithinLimits result }
{
    // The proof takes the limits of an identifier from these calls.
    let (_transaction, _stamp) = (transaction.as_bytes(), stamp.as_bytes());
    let mark = transaction_mark(slot, outcome);
    if outcome.approved {
        return Told::PaymentApproved {
            transaction: *transaction,
            stamp: *stamp,
            mark,
            requested: intent.amount,
            paid: money_of(intent, outcome),
        };
    }
    match outcome.condition {
        Some(condition) => Told::PaymentDeclined {
            transaction: *transaction,
            stamp: *stamp,
            mark,
            condition,
        },
        None => unreachable!(),
    }
}

/// The result body of a reversal.
fn reversal_body(slot: u32, intent: &Intent, outcome: &Outcome) -> Told
    requires { IsOutcome outcome.now }
    ensures body { entry_body deals.Reversal outcome.now.approved slot intent.now outcome.now ≡ Some result }
    ensures limits { IsToldWithinLimits result }
{
    let mark = transaction_mark(slot, outcome);
    if outcome.approved {
        return Told::ReversalApproved {
            mark,
            reversed: money_of(intent, outcome),
        };
    }
    match outcome.condition {
        Some(condition) => Told::ReversalDeclined { mark, condition },
        None => unreachable!(),
    }
}

/// The numbers and the moment of an Outcome, and its Intent's slot.
fn transaction_mark(slot: u32, outcome: &Outcome) -> PoiMark
    requires { IsOutcome outcome.now }
    ensures mark { result ≡ transaction_mark slot outcome.now }
    ensures limits { IsMarkWithinLimits result }
{
    PoiMark {
        number: outcome.number,
        receipt: outcome.receipt,
        slot,
        moment: outcome.moment,
    }
}

/// The Outcome's amount, in the Intent's currency.
fn money_of(intent: &Intent, outcome: &Outcome) -> Money
    ensures money { result ≡ money_of intent.now outcome.now }
    ensures limits { result.minor < 2 ^ 64 }
{
    law_u64(outcome.amount);
    Money {
        minor: outcome.amount,
        currency: intent.currency,
    }
}

/// The result body of a reconciliation: the totals up to it.
fn totals_body(closed: &Closed) -> Told
    ensures body { result ≡ totals_body closed.now }
    ensures limits { IsToldWithinLimits result }
{
    let totals = &closed.totals;
    law_total(&totals.debit);
    law_total(&totals.reversed);
    Told::Reconciled {
        period: period_of(closed.settled.how),
        currency: totals.currency,
        debit: totals.debit,
        reversed: totals.reversed,
    }
}

/// The reconciliation type of a Settled.
fn period_of(how: How) -> Period
    ensures { result ≡ period_of how }
{
    match how {
        How::Sale => Period::SaleReconciliation,
        How::Acquirer => Period::AcquirerReconciliation,
    }
}

// For the prover alone: what follows holds by the types of the arguments, and these functions do nothing. A contract
// learns what a type says of a value by a call that the value is handed to.

/// A number of this type has 32 bits.
fn law_u32(value: u32)
    ensures { value < 2 ^ 32 }
{
    let _value = value;
}

/// A number of this type has 64 bits.
fn law_u64(value: u64)
    ensures { value < 2 ^ 64 }
{
    let _value = value;
}

/// A count and a sum of these types lie within the limits of a reply's totals. `sale_reply` has the same for itself: it is
/// private there, since a caller in Rust has no use of it.
fn law_total(total: &(u32, u64))
    ensures { IsTotalWithinLimits total.now }
{
    law_u32(total.0);
    law_u64(total.1);
}
