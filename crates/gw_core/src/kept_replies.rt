//! What the records have under a key: the kept reply, or a request that is still open.
ghost use Rattle.std.specs.Prelude.{◌≡◌, IfSome, None, Some};
ghost use Rattle.sale_reply.specs.Limits.{IsHeaderWithinLimits};
ghost use Rattle.gw_ledger.specs.Fold.{found_of};
ghost use Rattle.gw_ledger.specs.Laws.{IsFoundWithin};
ghost use Rattle.xlate.specs.Reply.{result_body_of};
ghost use Rattle.gw_owes.specs.Replies.{failure_reply};
ghost use Rattle.gw_owes.specs.KeptReplies.{found_by_status, found_for, is_finished, is_open_key, kept_reply, own_key, repeated_reply, status_reply_at};
ghost use Rattle.gw_core.specs.ReplyOf.{AreSameReplies, IsSameReply};

use crate::refusal::{refused, reply_header};
use gw_base::{Condition, Key};
use gw_ledger::{Found, Ledger, law_within};
use sale_msg::{Header, Reference};
use sale_reply::SaleReply;
use xlate::reply_of;

/// What the records have under a key.
pub(crate) fn find(ledger: &Ledger, key: &Key) -> Option<Found>
    ensures found { result ≡ found_of ledger.now.records key.now }
    ensures within { IfSome result IsFoundWithin }
{
    ledger.law_folded();
    law_within();
    ledger.find(key)
}

/// The key of a request with this header; one without a ServiceID has none.
pub(crate) fn own_key(header: &Header) -> Option<Key>
    ensures { result ≡ own_key header.now }
{
    match header.service {
        None => None,
        Some(service) => Some(Key {
            sale: header.sale,
            poi: header.poi,
            service,
        }),
    }
}

/// What the records have under the key of a request.
pub(crate) fn found_for(ledger: &Ledger, header: &Header) -> Option<Found>
    ensures found { result ≡ found_for ledger.now.records header.now }
    ensures within { IfSome result IsFoundWithin }
{
    match own_key(header) {
        None => None,
        Some(key) => find(ledger, &key),
    }
}

/// What the records have of the last payment or reversal of a till at a terminal.
fn last_found(ledger: &Ledger, header: &Header) -> Option<Found>
    ensures found { result ≡ found_by_status ledger.now.records header.now None }
    ensures within { IfSome result IsFoundWithin }
{
    ledger.law_folded();
    law_within();
    match ledger.last_of(&header.sale, &header.poi) {
        None => None,
        Some(entry) => Some(Found::Entry(entry)),
    }
}

/// What a TransactionStatus asks about: what its reference names, or else the last payment or reversal.
pub(crate) fn found_by_status(
    ledger: &Ledger,
    header: &Header,
    reference: &Option<Reference>,
) -> Option<Found>
    ensures found { result ≡ found_by_status ledger.now.records header.now reference.now }
    ensures within { IfSome result IsFoundWithin }
{
    match reference {
        None => last_found(ledger, header),
        Some(reference) => find(ledger, &reference.key(header)),
    }
}

/// Whether it has a reply: it isn't open.
pub(crate) fn is_finished(found: &Found) -> bool
    requires { IsFoundWithin found.now }
    ensures { result ≡ is_finished found.now }
{
    match found {
        Found::Entry(entry) => entry.result.is_some(),
        Found::Closed(_) => true,
    }
}

/// The reply to what is finished, the same each time.
pub(crate) fn kept_reply(found: &Found) -> Option<SaleReply<'static>>
    requires { IsFoundWithin found.now }
    ensures { AreSameReplies result (kept_reply found.now) }
{
    if is_finished(found) {
        Some(reply_of(found))
    } else {
        None
    }
}

/// A header's texts lie within their limits.
pub(crate) fn law_header(header: &Header)
    ensures { IsHeaderWithinLimits header.now }
{
    // The proof takes the limits of an identifier from these calls.
    let _category = header.category.as_bytes();
    let (_sale, _poi) = (header.sale.as_bytes(), header.poi.as_bytes());
    if let Some(service) = &header.service {
        let _service = service.as_bytes();
    }
    if let Some(device) = &header.device {
        let _device = device.as_bytes();
    }
}

/// The reply that repeats the one to what is finished, or that it is still open.
fn repeated_reply(header: &Header, found: &Found) -> SaleReply<'static>
    requires { IsFoundWithin found.now }
    ensures { IsSameReply result (repeated_reply header.now found.now (result_body_of found.now)) }
{
    if !is_finished(found) {
        return refused(header, Condition::InProgress);
    }
    law_header(header);
    match reply_of(found) {
        SaleReply::Told {
            header: repeated,
            told,
        } => SaleReply::Status {
            header: reply_header(header),
            repeated,
            told,
        },
        _ => unreachable!(),
    }
}

/// Why there is nothing to repeat where nothing was found: the key may wait, or its end of day be served.
fn missing(is_pending: bool) -> Condition
    ensures { (header : Header) → status_reply_at header None is_pending ≡ failure_reply header result }
{
    if is_pending {
        Condition::InProgress
    } else {
        Condition::NotFound
    }
}

/// The reply to a TransactionStatus, by what was found, and whether its key waits or its end of day is served.
pub(crate) fn status_reply(
    header: &Header,
    found: &Option<Found>,
    is_pending: bool,
) -> SaleReply<'static>
    requires { IfSome found.now IsFoundWithin }
    ensures { IsSameReply result (status_reply_at header.now found.now is_pending) }
{
    match found {
        None => refused(header, missing(is_pending)),
        Some(found) => repeated_reply(header, found),
    }
}

/// Whether the key that an Abort names is open.
pub(crate) fn is_open_key(ledger: &Ledger, header: &Header, reference: &Reference) -> bool
    ensures { result ≡ is_open_key ledger.now.records header.now reference.now }
{
    match find(ledger, &reference.key(header)) {
        None => false,
        Some(found) => !is_finished(&found),
    }
}
