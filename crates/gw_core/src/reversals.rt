//! A reversal: its original, whether that may be reversed, and its Intent.
ghost use Rattle.std.specs.Prelude.{◌≡◌};
ghost use Rattle.gw_base.specs.Moment.{IsMoment, moment_of};
ghost use Rattle.jrn_record.specs.Limits.{IsIntent};
ghost use Rattle.gw_owes.specs.Reversals.{amount_in, is_irreversible, is_whole_of, may_be_reversed, names_irreversible, names_none, original_of, reversal_intent};

use crate::content::is_same_amount;
use gw_base::Ident;
use gw_ledger::{Entry, Ledger, is_reversible};
use jrn_record::{Deal, Intent, Outcome};
use sale_msg::{Header, ReversalAsk, SaleRequest};

/// The original of a reversal: the entry that its text names at the terminal with this POIID.
pub(crate) fn original_of(ledger: &Ledger, poi: &Ident<40>, reversal: &ReversalAsk) -> Option<Entry>
    ensures { result ≡ original_of ledger.now.records poi.now reversal.now }
{
    ledger.named(poi, reversal.transaction.as_bytes())
}

/// Whether the Outcome approves, and what is to be reversed is the whole of its amount.
fn is_whole_of(amount: Option<u64>, outcome: &Option<Outcome>) -> bool
    ensures { result ≡ is_whole_of amount outcome.now }
{
    match outcome {
        None => false,
        Some(outcome) => outcome.approved && is_same_amount(amount, outcome.amount),
    }
}

/// Whether the entry may be reversed: it is an approved payment that is neither reversed nor settled, and the whole of its amount is to
/// be reversed.
fn may_be_reversed(ledger: &Ledger, reversal: &ReversalAsk, entry: &Entry) -> bool
    ensures { result ≡ may_be_reversed ledger.now.records reversal.now entry.now }
{
    (is_reversible(entry.intent.what) && is_whole_of(reversal.amount, &entry.result))
        && (!ledger.reversed(entry.slot) && !ledger.settled(entry.slot))
}

/// Whether the original, where there is one, may not be reversed.
fn is_irreversible(ledger: &Ledger, reversal: &ReversalAsk, original: &Option<Entry>) -> bool
    ensures { result ≡ is_irreversible ledger.now.records reversal.now original.now }
{
    match original {
        None => false,
        Some(entry) => !may_be_reversed(ledger, reversal, entry),
    }
}

/// Whether it is a reversal that names no entry of the terminal with this POIID.
pub(crate) fn names_none(ledger: &Ledger, poi: &Ident<40>, request: &SaleRequest) -> bool
    ensures { result ≡ names_none ledger.now.records poi.now request.now }
{
    match request {
        SaleRequest::Reversal(reversal) => original_of(ledger, poi, reversal).is_none(),
        SaleRequest::Login
        | SaleRequest::Logout
        | SaleRequest::Payment(_)
        | SaleRequest::Abort(_)
        | SaleRequest::Status(_)
        | SaleRequest::Reconciliation(_)
        | SaleRequest::Display(_)
        | SaleRequest::Print(_)
        | SaleRequest::Diagnosis => false,
    }
}

/// Whether it is a reversal that names an entry which it may not reverse.
pub(crate) fn names_irreversible(ledger: &Ledger, poi: &Ident<40>, request: &SaleRequest) -> bool
    ensures { result ≡ names_irreversible ledger.now.records poi.now request.now }
{
    match request {
        SaleRequest::Reversal(reversal) => {
            is_irreversible(ledger, reversal, &original_of(ledger, poi, reversal))
        }
        SaleRequest::Login
        | SaleRequest::Logout
        | SaleRequest::Payment(_)
        | SaleRequest::Abort(_)
        | SaleRequest::Status(_)
        | SaleRequest::Reconciliation(_)
        | SaleRequest::Display(_)
        | SaleRequest::Print(_)
        | SaleRequest::Diagnosis => false,
    }
}

/// The amount of an Outcome; 0 where there is none.
pub(crate) fn amount_in(outcome: &Option<Outcome>) -> u64
    ensures { result ≡ amount_in outcome.now }
{
    match outcome {
        None => 0,
        Some(outcome) => outcome.amount,
    }
}

/// The Intent of a reversal of this entry, whose amount and currency it has, with the terminal's last trace number.
pub(crate) fn reversal_intent(header: &Header, original: &Entry, last: u32, now: i64) -> Intent
    requires moment { IsMoment now }
    requires within { IsIntent (reversal_intent header.now original.now last (moment_of now)) }
    ensures { result ≡ reversal_intent header.now original.now last (moment_of now) }
{
    let service = match header.service {
        Some(service) => service,
        // One that was read has its ServiceID.
        None => unreachable!(),
    };
    Intent {
        what: Deal::Reversal,
        sale: header.sale,
        poi: header.poi,
        service,
        transaction: None,
        stamp: None,
        amount: amount_in(&original.result),
        currency: original.intent.currency,
        before: last,
        original: Some(original.slot),
        moment: now,
    }
}
