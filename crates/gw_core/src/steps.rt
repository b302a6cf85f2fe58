//! The steps of a Payment, a Reversal and a Reconciliation: the first that applies replies.
ghost use Rattle.std.specs.Prelude.{◌≡◌, ◌&&◌, ℕ, None, Some, Option};
ghost use Rattle.gw_ledger.specs.Laws.{IsFoundWithin};
ghost use Rattle.gw_owes.specs.Diagnosis.{NamedTerminal, named_terminal};
ghost use Rattle.gw_owes.specs.KeptReplies.{found_for};
ghost use Rattle.gw_owes.specs.Row.{Known};
ghost use Rattle.gw_owes.specs.Waits.{is_pending_again, is_pending_key};
ghost use Rattle.gw_owes.specs.Steps.{Fails, asks_other_currency, asks_settling, asks_transaction, is_last_of, is_out_of_service, is_ready_standing, is_sale_period, is_unserved, is_unserved_period, is_used_up, lacks_room, refused_again, reply_of_result};
ghost use Rattle.gw_core.specs.ReplyOf.{AreSameReplies, IsGivenByService, IsKnownToSteps, result_by, result_of_new};

use crate::content::{has_same_content, is_normal};
use crate::days::{is_day_again, is_day_key};
use crate::gateway::Gateway;
use crate::kept_replies::{found_for, kept_reply};
use crate::refusal::refused;
use crate::reversals::{names_irreversible, names_none};
use crate::terminals::Core;
use crate::till::Given;
use gw_base::{Condition, Ident};
use gw_bytes::GREATEST_TRACE;
use gw_ledger::{Found, Ledger};
use gw_owes::{Standing, Terminal, law_on_record};
use sale_msg::{Header, Period, SaleRequest};
use sale_reply::SaleReply;

/// Whether this reconciliation type isn't served.
fn is_unserved_period(period: Period) -> bool
    ensures { result ≡ is_unserved_period period }
{
    match period {
        Period::SaleReconciliation | Period::AcquirerReconciliation => false,
        Period::AcquirerSynchronisation | Period::PreviousReconciliation => true,
    }
}

/// Whether the service isn't there: a payment whose type isn't `Normal`, a reconciliation of a type that isn't served, and each
/// request that is none of payment, reversal and reconciliation.
fn is_unserved(request: &SaleRequest) -> bool
    ensures { result ≡ is_unserved request.now }
{
    match request {
        SaleRequest::Payment(ask) => !is_normal(&ask.kind),
        SaleRequest::Reversal(_) => false,
        SaleRequest::Reconciliation(period) => is_unserved_period(*period),
        SaleRequest::Login
        | SaleRequest::Logout
        | SaleRequest::Abort(_)
        | SaleRequest::Status(_)
        | SaleRequest::Display(_)
        | SaleRequest::Print(_)
        | SaleRequest::Diagnosis => true,
    }
}

/// Whether it is a payment in a currency that isn't the terminal's.
fn asks_other_currency(request: &SaleRequest, terminal: &Terminal) -> bool
    ensures { (number : ℕ) → result ≡ asks_other_currency request.now (Some (record { number = number; terminal = terminal.now })) }
{
    match request {
        SaleRequest::Payment(ask) => ask.currency != terminal.pt.currency.code(),
        SaleRequest::Login
        | SaleRequest::Logout
        | SaleRequest::Reversal(_)
        | SaleRequest::Abort(_)
        | SaleRequest::Status(_)
        | SaleRequest::Reconciliation(_)
        | SaleRequest::Display(_)
        | SaleRequest::Print(_)
        | SaleRequest::Diagnosis => false,
    }
}

/// Whether it is the last trace number with which a terminal of this standing was ready.
fn is_last_of(number: u32, standing: &Standing) -> bool
    ensures { result ≡ is_last_of number standing.now }
{
    match standing {
        Standing::Ready { last } | Standing::Serving { last, .. } => *last == number,
        Standing::Unlinked { .. }
        | Standing::Registering
        | Standing::Enquiring
        | Standing::Aside { .. } => false,
    }
}

/// Whether the greatest trace number is the last one of the records or of the terminal.
fn is_used_up(ledger: &Ledger, poi: &Ident<40>, terminal: &Terminal) -> bool
    ensures { (number : ℕ) → result ≡ is_used_up ledger.now.records poi.now (Some (record { number = number; terminal = terminal.now })) }
{
    ledger.last_number(poi) == GREATEST_TRACE || is_last_of(GREATEST_TRACE, &terminal.standing)
}

/// Whether it is a payment or a reversal.
fn asks_transaction(request: &SaleRequest) -> bool
    ensures { result ≡ asks_transaction request.now }
{
    match request {
        SaleRequest::Payment(_) | SaleRequest::Reversal(_) => true,
        SaleRequest::Login
        | SaleRequest::Logout
        | SaleRequest::Abort(_)
        | SaleRequest::Status(_)
        | SaleRequest::Reconciliation(_)
        | SaleRequest::Display(_)
        | SaleRequest::Print(_)
        | SaleRequest::Diagnosis => false,
    }
}

/// Whether it is to have a trace number of its own, and none is left.
fn lacks_number(
    ledger: &Ledger,
    poi: &Ident<40>,
    request: &SaleRequest,
    terminal: &Terminal,
) -> bool
    ensures { (number : ℕ) → result ≡ (asks_transaction request.now && is_used_up ledger.now.records poi.now (Some (record { number = number; terminal = terminal.now }))) }
{
    asks_transaction(request) && is_used_up(ledger, poi, terminal)
}

/// Whether fewer slots are free than two for the Intent and its Outcome, one for each key that is open, and those that are reserved
/// for what is served or waits.
fn lacks_room(slots: u32, ledger: &Ledger, core: &Core) -> bool
    ensures { result ≡ lacks_room slots ledger.now.records core.now }
{
    let owed = u64::from(ledger.open_count()) + (core.slots_reserved() as u64 + 2);
    u64::from(slots) < u64::from(ledger.records()) + owed
}

/// Whether the reconciliation is one of the till's own.
fn is_sale_period(period: Period) -> bool
    ensures { result ≡ is_sale_period period }
{
    match period {
        Period::SaleReconciliation => true,
        Period::AcquirerSynchronisation
        | Period::AcquirerReconciliation
        | Period::PreviousReconciliation => false,
    }
}

/// Whether it is a reconciliation of the till's own, which asks nothing of the terminal.
fn asks_settling(request: &SaleRequest) -> bool
    ensures { result ≡ asks_settling request.now }
{
    match request {
        SaleRequest::Reconciliation(period) => is_sale_period(*period),
        SaleRequest::Login
        | SaleRequest::Logout
        | SaleRequest::Payment(_)
        | SaleRequest::Reversal(_)
        | SaleRequest::Abort(_)
        | SaleRequest::Status(_)
        | SaleRequest::Display(_)
        | SaleRequest::Print(_)
        | SaleRequest::Diagnosis => false,
    }
}

/// Whether a terminal of this standing takes no request.
pub(crate) fn is_out_of_service(standing: &Standing) -> bool
    ensures { result ≡ is_out_of_service standing.now }
{
    match standing {
        Standing::Ready { .. } | Standing::Serving { .. } => false,
        Standing::Unlinked { .. }
        | Standing::Registering
        | Standing::Enquiring
        | Standing::Aside { .. } => true,
    }
}

/// Whether a terminal of this standing is ready.
pub(crate) fn is_ready(standing: &Standing) -> bool
    ensures { result ≡ is_ready_standing standing.now }
{
    match standing {
        Standing::Ready { .. } => true,
        Standing::Serving { .. } => false,
        Standing::Unlinked { .. }
        | Standing::Registering
        | Standing::Enquiring
        | Standing::Aside { .. } => false,
    }
}

/// Whether the request asks again for the end of day that the terminal serves, or for what waits.
fn is_pending_again(
    core: &Core,
    ledger: &Ledger,
    header: &Header,
    request: &SaleRequest,
    terminal: &Terminal,
) -> bool
    ensures { (known : Known) → known.core ≡ core.now → known.kept ≡ ledger.now.records → (number : ℕ)
        → result ≡ is_pending_again known header.now request.now (Some (record { number = number; terminal = terminal.now })) }
{
    is_day_again(header, request, terminal) || core.repeats_waiting(ledger, header, request)
}

/// Whether the key of a request with this header is that of the end of day that the terminal serves, or waits.
fn is_pending_key(core: &Core, header: &Header, terminal: &Terminal) -> bool
    ensures { (number : ℕ) → result ≡ is_pending_key core.now header.now (Some (record { number = number; terminal = terminal.now })) }
{
    is_day_key(header, terminal) || core.is_waiting(header)
}

/// Why a request that has waited isn't begun at its terminal; `None` where it is.
pub(crate) fn refused_again(
    ledger: &Ledger,
    header: &Header,
    request: &SaleRequest,
    terminal: &Terminal,
) -> Option<Condition>
    ensures { (known : Known) → known.kept ≡ ledger.now.records → (number : ℕ)
        → result ≡ refused_again known header.now request.now (Some (record { number = number; terminal = terminal.now })) }
{
    if names_none(ledger, &header.poi, request) {
        return Some(Condition::NotFound);
    }
    if names_irreversible(ledger, &header.poi, request) {
        return Some(Condition::NotAllowed);
    }
    if lacks_number(ledger, &header.poi, request, terminal) {
        return Some(Condition::UnavailableService);
    }
    None
}

/// What becomes of a request whose key is new.
#[derive(Clone, Copy)]
enum NewRequest {
    Refused(Condition),
    Begins,
    Waits,
}

/// What becomes of a request whose key is new, at the terminal that its POIID names.
fn at_terminal(
    core: &Core,
    gateway: &Gateway,
    ledger: &Ledger,
    header: &Header,
    request: &SaleRequest,
    pt: u16,
    terminal: &Terminal,
) -> NewRequest
    ensures { (known : Known) → IsKnownToSteps gateway.now ledger.now.records core.now known
        → result_by known header.now request.now None (Some (record { number = pt; terminal = terminal.now })) ≡ result_of_new result }
{
    let poi = &header.poi;
    if is_pending_again(core, ledger, header, request, terminal) {
        return NewRequest::Refused(Condition::InProgress);
    }
    if is_pending_key(core, header, terminal) {
        return NewRequest::Refused(Condition::NotAllowed);
    }
    if core.is_logged_out(header) {
        return NewRequest::Refused(Condition::LoggedOut);
    }
    if is_unserved(request) {
        return NewRequest::Refused(Condition::UnavailableService);
    }
    if asks_other_currency(request, terminal) {
        return NewRequest::Refused(Condition::NotAllowed);
    }
    if names_none(ledger, poi, request) {
        return NewRequest::Refused(Condition::NotFound);
    }
    if names_irreversible(ledger, poi, request) {
        return NewRequest::Refused(Condition::NotAllowed);
    }
    if lacks_number(ledger, poi, request, terminal) {
        return NewRequest::Refused(Condition::UnavailableService);
    }
    if lacks_room(gateway.slots, ledger, core) {
        return NewRequest::Refused(Condition::UnavailableService);
    }
    if asks_settling(request) {
        return NewRequest::Begins;
    }
    if is_out_of_service(&terminal.standing) {
        return NewRequest::Refused(Condition::UnavailableDevice);
    }
    if is_ready(&terminal.standing) {
        return NewRequest::Begins;
    }
    if core.is_queue_full(gateway.line, pt) {
        return NewRequest::Refused(Condition::Busy);
    }
    NewRequest::Waits
}

/// Why a request is refused whose key is new, and whose POIID names no terminal.
fn refused_unnamed(
    core: &Core,
    ledger: &Ledger,
    header: &Header,
    request: &SaleRequest,
) -> Condition
    ensures { (known : Known) → known.core ≡ core.now → known.kept ≡ ledger.now.records
        → result_by known header.now request.now None None ≡ Fails result }
{
    if core.repeats_waiting(ledger, header, request) {
        return Condition::InProgress;
    }
    if core.is_waiting(header) {
        return Condition::NotAllowed;
    }
    Condition::UnavailableDevice
}

/// The reply to a request whose key is on record.
fn recorded_reply(
    ledger: &Ledger,
    header: &Header,
    request: &SaleRequest,
    found: &Found,
) -> SaleReply<'static>
    requires { IsFoundWithin found.now }
    ensures { (known : Known) (named : Option NamedTerminal) → known.kept ≡ ledger.now.records → found_for known.kept header.now ≡ Some found.now
        → AreSameReplies (Some result) (reply_of_result known.kept header.now (result_by known header.now request.now (Some found.now) named)) }
{
    if !has_same_content(ledger, request, found) {
        return refused(header, Condition::NotAllowed);
    }
    match kept_reply(found) {
        Some(reply) => reply,
        None => refused(header, Condition::InProgress),
    }
}

/// What a Payment, a Reversal or a Reconciliation gets: its reply, or that it begins or waits.
pub(crate) fn service(
    core: &Core,
    gateway: &Gateway,
    ledger: &Ledger,
    header: Header,
    request: SaleRequest,
) -> Given
    ensures { (known : Known) → IsKnownToSteps gateway.now ledger.now.records core.now known
        → IsGivenByService known header request (named_terminal core.now header.poi) result }
{
    law_on_record();
    if let Some(found) = found_for(ledger, &header) {
        return Given::Reply(recorded_reply(ledger, &header, &request, &found));
    }
    let pt = match core.named(&header.poi) {
        Some(pt) => pt,
        None => {
            let condition = refused_unnamed(core, ledger, &header, &request);
            return Given::Reply(refused(&header, condition));
        }
    };
    let terminal = core.terminal(pt);
    match at_terminal(core, gateway, ledger, &header, &request, pt, terminal) {
        NewRequest::Begins => Given::Begins {
            pt,
            header,
            request,
            results: None,
        },
        NewRequest::Waits => Given::Queues {
            pt,
            header,
            request,
        },
        NewRequest::Refused(condition) => Given::Reply(refused(&header, condition)),
    }
}
