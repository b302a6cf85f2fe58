//! The reply to a message of a till.
ghost use Rattle.std.specs.Prelude.{◌≡◌, ℕ, List, [], IfOk};
ghost use Rattle.gw_base.specs.Moment.{moment_of};
ghost use Rattle.json_text.specs.Grammar.{Spells};
ghost use Rattle.json_text.specs.ValueOf.{value_of};
ghost use Rattle.sale_values.specs.declared.request.SaleRequest.TheVariants.{Abort};
ghost use Rattle.sale_reply.specs.declared.reply.Detail.TheVariants.{Json as JsonDetail};
ghost use Rattle.sale_reply.specs.Limits.{HasUnlimitedParts, IsWithinLimits};
ghost use Rattle.gw_owes.specs.KeptReplies.{is_open_key};
ghost use Rattle.gw_owes.specs.Row.{Known};
ghost use Rattle.gw_owes.specs.Diagnosis.{diagnosis_reply, named_terminal};
ghost use Rattle.gw_owes.specs.Replies.{reply_to_fault as reply_owed_to_fault, reject_event};
ghost use Rattle.gw_owes.specs.Requests.{abort_reply};
ghost use Rattle.gw_owes.specs.ReadAs.{Request};
ghost use Rattle.gw_core.specs.ReplyOf.{IsSameReply, AreSameReplies, IsAskedRow, IsGivenFor, IsGivenToBegin, IsKnownAt, IsReplyTo, HasFewOutputs, IsGivenPrepared, IsGivenWithinLimits, items_given, reply_given};

use crate::displays::display;
use crate::gateway::Gateway;
use crate::kept_replies::{found_by_status, is_open_key, status_reply};
use crate::refusal::{
    malformed_body, printed, refusal, refused, reject, reject_without_header, reply_header,
};
use crate::sessions::session;
use crate::steps::service;
use crate::stops::serving_terminal;
use crate::terminals::Core;
use gw_base::{Condition, Ident};
use gw_ledger::Ledger;
use json_text::{Json, JsonFault, ReadError};
use sale_msg::{Header, Incoming, MessageError, Reference, SaleFault, SaleRequest, read_message};
use sale_reply::{Detail, OutputResults, SaleReply, is_within_limits};
use std::alloc::{AllocError, Global};

/// What a message of a till wants done.
#[derive(Drop)]
pub enum Given {
    /// There is no reply.
    Nothing,
    /// The till is sent this.
    Reply(SaleReply<'static>),
    /// The request begins at the terminal of this number; there is no reply yet. The results are those that a Display's till gets, in
    /// which no output is shown yet; `None` where it asks for none, and of another request.
    Begins {
        pt: u16,
        header: Header,
        request: SaleRequest,
        results: Option<OutputResults>,
    },
    /// The request joins those that wait for the terminal of this number, or is the Abort of one that waits for it; there is no reply
    /// yet.
    Queues {
        pt: u16,
        header: Header,
        request: SaleRequest,
    },
}

/// The reply is given, where there is one.
pub(crate) fn replied(reply: Option<SaleReply<'static>>) -> Given
    ensures reply { reply_given result ≡ reply.entry }
    ensures none { (till : ℕ) → items_given till result ≡ [] }
    ensures prepared { IsGivenPrepared result }
{
    match reply {
        None => Given::Nothing,
        Some(reply) => Given::Reply(reply),
    }
}

/// The reply to a Diagnosis.
fn diagnosed(core: &Core, header: &Header) -> SaleReply<'static>
    ensures { IsSameReply result (diagnosis_reply header.now (named_terminal core.now header.now.poi)) }
{
    match core.named(&header.poi) {
        None => refused(header, Condition::UnavailableDevice),
        Some(pt) => SaleReply::Diagnosis {
            header: reply_header(header),
            status: core.status(pt),
        },
    }
}

/// The reply to an Abort, where no terminal serves the key that it names, and it doesn't wait: one of a key that is open gets none, and
/// another is rejected.
fn abort_reply(
    ledger: &Ledger,
    now: i64,
    header: &Header,
    reference: &Reference,
) -> Option<SaleReply<'static>>
    ensures { (known : Known) → known.moment ≡ moment_of now → AreSameReplies result (abort_reply (is_open_key ledger.now.records header.now reference.now) known header.now) }
{
    if is_open_key(ledger, header, reference) {
        return None;
    }
    Some(reject(&header.sale, &header.poi, now, Detail::Abort))
}

/// What an Abort gets: where the key that it names waits, that is taken out; where a terminal serves it, that is to stop; else its reply.
fn given_to_abort(
    core: &Core,
    ledger: &Ledger,
    now: i64,
    header: Header,
    reference: Reference,
) -> Given
    ensures { (known : Known) → known.kept ≡ ledger.now.records → known.core ≡ core.now → known.moment ≡ moment_of now → IsGivenFor known (Request header (Abort reference)) result }
{
    let key = reference.key(&header);
    if let Some(pt) = core.waiting_at(&key) {
        return Given::Queues {
            pt,
            header,
            request: SaleRequest::Abort(reference),
        };
    }
    match serving_terminal(core, ledger, &key) {
        Some(pt) => Given::Begins {
            pt,
            header,
            request: SaleRequest::Abort(reference),
            results: None,
        },
        None => replied(abort_reply(ledger, now, &header, &reference)),
    }
}

/// What a request gets: its reply, or else it begins at a terminal or waits for it.
#[inline(never)]
fn asked(
    alloc: Global,
    core: &Core,
    gateway: &Gateway,
    ledger: &Ledger,
    now: i64,
    header: Header,
    request: SaleRequest,
) -> Result<Given, AllocError>
    requires { HasFewOutputs request }
    ensures { (known : Known) → IsKnownAt gateway.now ledger.now.records core.now (moment_of now) known → IfOk result (IsGivenFor known (Request header request)) }
{
    match request {
        SaleRequest::Payment(_) | SaleRequest::Reversal(_) | SaleRequest::Reconciliation(_) => {
            Ok(service(core, gateway, ledger, header, request))
        }
        SaleRequest::Status(reference) => {
            let found = found_by_status(ledger, &header, &reference);
            let is_pending = core.asks_pending(&header, &reference);
            Ok(Given::Reply(status_reply(&header, &found, is_pending)))
        }
        SaleRequest::Abort(reference) => Ok(given_to_abort(core, ledger, now, header, reference)),
        SaleRequest::Diagnosis => Ok(Given::Reply(diagnosed(core, &header))),
        SaleRequest::Login | SaleRequest::Logout => Ok(session(core, header, request)),
        SaleRequest::Display(outputs) => display(alloc, core, header, outputs),
        SaleRequest::Print(qualifier) => {
            let verdict = refusal(Condition::UnavailableDevice);
            Ok(Given::Reply(printed(&header, &qualifier, verdict)))
        }
    }
}

/// As [`asked`], which has every request; a payment takes no room on the stack here for what others get.
fn given_to_request(
    alloc: Global,
    core: &Core,
    gateway: &Gateway,
    ledger: &Ledger,
    now: i64,
    header: Header,
    request: SaleRequest,
) -> Result<Given, AllocError>
    requires { HasFewOutputs request }
    ensures { (known : Known) → IsKnownAt gateway.now ledger.now.records core.now (moment_of now) known → IfOk result (IsGivenFor known (Request header request)) }
{
    match request {
        SaleRequest::Payment(_) => Ok(service(core, gateway, ledger, header, request)),
        _ => asked(alloc, core, gateway, ledger, now, header, request),
    }
}

/// The reply to a tree that is no message, by its first fault.
fn reply_to_fault(
    alloc: Global,
    name: &Ident<40>,
    now: i64,
    fault: SaleFault,
) -> Result<SaleReply<'static>, AllocError>
    ensures { IfOk result (λ given. IsSameReply given (reply_owed_to_fault name.now (moment_of now) fault)) }
{
    let reply = match fault {
        SaleFault::NoHeader { path } => reject_without_header(name, now, Detail::Header(path)),
        SaleFault::Missing { header, path } | SaleFault::Wrong { header, path } => {
            malformed_body(alloc, now, &header, path)?
        }
        SaleFault::Unserved { header } => refused(&header, Condition::UnavailableService),
    };
    Ok(reply)
}

/// What a tree gets.
fn given_to_tree(
    alloc: Global,
    core: &Core,
    gateway: &Gateway,
    ledger: &Ledger,
    now: i64,
    json: &Json,
) -> Result<Given, AllocError>
    ensures { (message : List ℕ) → Spells (value_of json.now) message → IfOk result (IsReplyTo gateway.now ledger.now.records core.now (moment_of now) message) }
{
    match read_message(alloc, json) {
        Ok(Incoming::Request(header, request)) => {
            given_to_request(alloc, core, gateway, ledger, now, header, request)
        }
        Ok(Incoming::Silent) => Ok(Given::Nothing),
        Err(MessageError::Fault(fault)) => {
            let reply = reply_to_fault(alloc, &gateway.name, now, fault)?;
            Ok(Given::Reply(reply))
        }
        Err(MessageError::Memory) => Err(AllocError),
    }
}

/// The reply to bytes that are no text.
fn reply_to_no_text(name: &Ident<40>, now: i64, fault: JsonFault) -> SaleReply<'static>
    ensures { IsSameReply result (reject_event name.now (moment_of now) (JsonDetail fault)) }
{
    reject_without_header(name, now, Detail::Json(fault))
}

/// What a message gets.
#[inline(never)]
fn given_to_message(
    alloc: Global,
    core: &Core,
    gateway: &Gateway,
    ledger: &Ledger,
    now: i64,
    message: &[u8],
) -> Result<Given, AllocError>
    ensures { IfOk result (IsReplyTo gateway.now ledger.now.records core.now (moment_of now) message.now) }
{
    match json_text::read(alloc, message) {
        Ok(json) => given_to_tree(alloc, core, gateway, ledger, now, &json),
        Err(ReadError::Fault(fault)) => {
            let reply = reply_to_no_text(&gateway.name, now, fault);
            Ok(Given::Reply(reply))
        }
        Err(ReadError::Memory) => Err(AllocError),
    }
}

impl Core {
    /// What a message of a till wants done, by what the records have: its reply, where there is one, or the request begins at a
    /// terminal or waits for it. A reply is to be sent to that till, whichever it is.
    ///
    /// The message is that of a frame, without its length.
    pub fn on_till(
        &self,
        alloc: Global,
        gateway: &Gateway,
        ledger: &Ledger,
        message: &[u8],
        now: i64,
    ) -> Result<Given, AllocError>
        ensures row { IfOk result (λ given. (till : ℕ) → IsAskedRow gateway.now ledger.now.records self.now (moment_of now) till message.now given) }
        ensures reply { IfOk result (IsReplyTo gateway.now ledger.now.records self.now (moment_of now) message.now) }
        ensures begins { IfOk result (IsGivenToBegin gateway.now ledger.now.records self.now (moment_of now)) }
        ensures within { IfOk result IsGivenWithinLimits }
    {
        let given = given_to_message(alloc, self, gateway, ledger, now, message)?;
        if let Given::Reply(reply) = &given {
            lies_within(reply);
        }
        Ok(given)
    }
}

/// A message lies within the limits where its types limit its parts, or else as it was shown to.
pub(crate) fn lies_within(reply: &SaleReply<'_>)
    requires { HasUnlimitedParts reply.now → IsWithinLimits reply.now }
    ensures { IsWithinLimits reply.now }
{
    let _ = is_within_limits(reply);
}
