//! Requests that wait for a terminal: one joins them, is taken out by a till's Abort or at its deadline, and is begun or refused once its terminal is ready.
ghost use Rattle.std.specs.Prelude.{◌≡◌, ◌<◌, ◌≤◌, ℕ, List, [], length, is_some, nat_le, None, Some, IfOk, IfSome, OnErr, option_map, slice_get};
ghost use Rattle.gw_base.specs.Moment.{moment_of};
ghost use Rattle.gw_base.specs.declared.setup.Setup.{Setup};
ghost use Rattle.jrn_record.specs.declared.records.Record.{Record};
ghost use Rattle.gw_owes.specs.Core.{Wait};
ghost use Rattle.gw_owes.specs.KeptReplies.{own_key};
ghost use Rattle.gw_owes.specs.Row.{Known};
ghost use Rattle.gw_owes.specs.WaitingLaws.{may_wait};
ghost use Rattle.gw_owes.specs.WaitingRows.{abort_row, begins_from_queue, next_waiting_row, queue_row, refusal_calls, waits_under};
ghost use Rattle.gw_owes.specs.Waits.{asks_pending, is_pending, memory_reserved, queue_of, repeats_waiting, slots_reserved, waiting_for, waiting_with};
ghost use Rattle.gw_owes.specs.declared.terminal.Terminal.{Terminal as TheTerminal};
ghost use Rattle.gw_core.specs.Beginning.{MayBeNext, MayBegin, key_aborted, leaves_queue};
ghost use Rattle.gw_core.specs.IsRow.{AreCallsThen, IsRow, IsRowThen, IsWantedAt, KnowsWaits, MayBeKept, alone, known_with, next_items};
ghost use Rattle.gw_core.specs.Queues.{first_overdue_row, as_wait};
ghost use Rattle.gw_core.specs.ReplyOf.{IsKnownAt, QueuesAt};

use crate::act::{Act, Acts};
use crate::beginning::begin_request;
use crate::gateway::Gateway;
use crate::kept_replies::own_key;
use crate::refusal::refused;
use crate::steps::{is_ready, refused_again};
use crate::terminals::Core;
use crate::till::lies_within;
use gw_base::{Condition, Key, to_moment};
use gw_ledger::Ledger;
use gw_links::Item;
use gw_owes::law_waits;
use sale_msg::{Header, Reference, SaleRequest};
use std::alloc::AllocError;

/// The Failure to a request that waits no longer.
fn refusal_of(item: Item, condition: Condition) -> Act<'static>
    ensures calls { AreCallsThen [] result (refusal_calls (as_wait item) condition) }
    ensures wanted { (pt : ℕ) → IsWantedAt pt result }
{
    let reply = refused(&item.header, condition);
    lies_within(&reply);
    Act::SendTill(item.till, reply)
}

/// The key that an Abort names; `None` of another request.
fn key_aborted(header: &Header, request: &SaleRequest) -> Option<Key>
    ensures { result ≡ key_aborted header.now request.now }
{
    match request {
        SaleRequest::Abort(reference) => Some(reference.key(header)),
        SaleRequest::Login
        | SaleRequest::Logout
        | SaleRequest::Payment(_)
        | SaleRequest::Reversal(_)
        | SaleRequest::Status(_)
        | SaleRequest::Reconciliation(_)
        | SaleRequest::Display(_)
        | SaleRequest::Print(_)
        | SaleRequest::Diagnosis => None,
    }
}

impl Core {
    /// How many requests wait; at most 256.
    pub fn waiting(&self) -> usize
        ensures count { result ≡ length self.now.waits }
        ensures few { result ≤ 256 }
    {
        self.queues().count()
    }

    /// How many records' memory is reserved for what is served or waits.
    pub fn memory_reserved(&self) -> usize
        ensures count { result ≡ memory_reserved self.now }
        ensures few { result ≤ 288 }
    {
        usize::from(self.days_served()) + self.waiting()
    }

    /// How many slots are reserved for what is served or waits.
    pub(crate) fn slots_reserved(&self) -> usize
        ensures count { result ≡ slots_reserved self.now }
        ensures few { result ≤ 544 }
    {
        usize::from(self.days_served()) + 2 * self.waiting()
    }

    /// The terminal for which the request with this key waits.
    pub(crate) fn waiting_at(&self, key: &Key) -> Option<u16>
        ensures { result ≡ option_map (λ (wait : Wait). wait.pt) (waiting_with key.now self.now.waits) }
    {
        self.queues().terminal_of(key)
    }

    /// Whether a request waits under the key of one with this header.
    pub(crate) fn is_waiting(&self, header: &Header) -> bool
        ensures { result ≡ is_some (waiting_for self.now header.now) }
    {
        match own_key(header) {
            None => false,
            Some(key) => self.waiting_at(&key).is_some(),
        }
    }

    /// Whether a request asks for the same as the one that waits under its key.
    pub(crate) fn repeats_waiting(
        &self,
        ledger: &Ledger,
        header: &Header,
        request: &SaleRequest,
    ) -> bool
        ensures { result ≡ repeats_waiting ledger.now.records header.now.poi request.now (waiting_for self.now header.now) }
    {
        match own_key(header) {
            None => false,
            Some(key) => self.queues().repeats(ledger, &header.poi, &key, request),
        }
    }

    /// Whether as many wait for this terminal as may.
    pub(crate) fn is_queue_full(&self, line: u8, pt: u16) -> bool
        ensures { result ≡ nat_le line (length (queue_of pt self.now.waits)) }
    {
        self.queues().count_at(pt) >= usize::from(line)
    }

    /// Whether the key waits, or is that of an end of day that is served.
    fn is_pending(&self, key: &Key) -> bool
        ensures { result ≡ is_pending self.now key.now }
    {
        self.is_day_served(key) || self.waiting_at(key).is_some()
    }

    /// Whether a TransactionStatus asks about such a key, which its reference names.
    pub(crate) fn asks_pending(&self, header: &Header, reference: &Option<Reference>) -> bool
        ensures { result ≡ asks_pending self.now header.now reference.now }
    {
        match reference {
            None => false,
            Some(reference) => self.is_pending(&reference.key(header)),
        }
    }

    /// A request of a till joins those that wait for a terminal; or, where it is an Abort, the one that it names is taken out, and its
    /// till gets a Failure. Where memory is refused, nothing changes.
    pub fn queue(
        &mut self,
        gateway: &Gateway,
        ledger: &Ledger,
        pt: u16,
        till: u64,
        header: Header,
        request: SaleRequest,
        now: i64,
    ) -> Result<Option<Act<'static>>, AllocError>
        requires terminal { pt < 32 }
        requires queues { QueuesAt gateway.now ledger.now.records self.old (moment_of now) pt header request }
        ensures row { IfOk result (λ wanted. (known : Known) → IsKnownAt gateway.now ledger.now.records self.old (moment_of now) known
            → IsRow ledger.now.records (queue_row known pt till header request) self.new (alone wanted)) }
        ensures wanted { IfOk result (λ wanted. (pt : ℕ) → IfSome wanted (IsWantedAt pt)) }
        ensures refused { OnErr result (self.new ≡ self.old) }
    {
        match key_aborted(&header, &request) {
            Some(key) => Ok(self.abort(&key)),
            None => {
                self.join(gateway, pt, till, header, request, now)?;
                Ok(None)
            }
        }
    }

    /// The request joins those that wait for the terminal, under its key.
    fn join(
        &mut self,
        gateway: &Gateway,
        pt: u16,
        till: u64,
        header: Header,
        request: SaleRequest,
        now: i64,
    ) -> Result<(), AllocError>
        requires terminal { pt < 32 }
        requires unknown { waiting_for self.old header ≡ None }
        ensures joined { IfOk result (λ done. (known : Known) → known.core ≡ self.old → known.moment ≡ moment_of now → known.setup.wait ≡ gateway.now.wait
            → self.new ≡ (waits_under known pt till header request (own_key header)).core) }
        ensures refused { OnErr result (self.new ≡ self.old) }
    {
        let key = match own_key(&header) {
            Some(key) => key,
            None => return Ok(()),
        };
        let deadline = to_moment(now) + i64::from(gateway.wait);
        self.queues.join(key, pt, till, deadline, header, request)
    }

    /// The request with this key is taken out, where it waits, and its till gets a Failure.
    fn abort(&mut self, key: &Key) -> Option<Act<'static>>
        ensures row { (setup : Setup) (kept : List Record) (moment : ℕ) → IsRow kept (abort_row (known_with setup kept self.old moment) key.now) self.new (alone result) }
        ensures wanted { (pt : ℕ) → IfSome result (IsWantedAt pt) }
    {
        match self.queues.take(key) {
            None => None,
            Some(item) => Some(refusal_of(item, Condition::Aborted)),
        }
    }

    /// The first request that has waited for too long, by deadline and then by acceptance, is taken out, where there is one, and its till
    /// gets a Failure.
    pub fn overdue(&mut self, now: i64) -> Option<Act<'static>>
        ensures row { (setup : Setup) (kept : List Record) → IsRow kept (first_overdue_row (known_with setup kept self.old (moment_of now))) self.new (alone result) }
        ensures wanted { (pt : ℕ) → IfSome result (IsWantedAt pt) }
    {
        match self.queues.take_overdue(to_moment(now)) {
            None => None,
            Some(item) => Some(refusal_of(item, Condition::Aborted)),
        }
    }

    /// The first request that waits for a terminal is taken out, where that is ready, and is begun or refused. True where the next one
    /// is to be looked at.
    pub fn next(&mut self, ledger: &Ledger, pt: u16, now: i64) -> (Acts<'static>, bool)
        requires there { pt < length self.old.terminals }
        requires order { KnowsWaits ledger.now.records self.old (moment_of now) }
        ensures row { (setup : Setup)
            → IsRowThen ledger.now.records (next_waiting_row (known_with setup ledger.now.records self.old (moment_of now)) pt) self.new result.0 (next_items pt result.1) }
        ensures kept { IfSome result.0.keep (MayBeKept ledger.now.records) }
        ensures wanted { IfSome result.0.act (IsWantedAt pt) }
    {
        law_waits();
        if !is_ready(self.standing(pt)) {
            return (Acts::none(), false);
        }
        match self.queues.take_first(pt) {
            None => (Acts::none(), false),
            Some(item) => self.begin_waiting(ledger, pt, item, now),
        }
    }

    /// A request that has waited for a terminal that is ready is begun or refused. True where the next one is to be looked at.
    fn begin_waiting(
        &mut self,
        ledger: &Ledger,
        pt: u16,
        item: Item,
        now: i64,
    ) -> (Acts<'static>, bool)
        requires there { pt < length self.old.terminals }
        requires begins { IfSome (slice_get self.old.terminals pt) (MayBeNext ledger.now.records (moment_of now) pt (as_wait item)) }
        ensures row { (setup : Setup) (terminal : TheTerminal) → slice_get self.old.terminals pt ≡ Some terminal
            → IsRowThen ledger.now.records (leaves_queue (known_with setup ledger.now.records self.old (moment_of now)) pt (as_wait item) terminal) self.new result.0 (next_items pt result.1) }
        ensures kept { IfSome result.0.keep (MayBeKept ledger.now.records) }
        ensures wanted { IfSome result.0.act (IsWantedAt pt) }
    {
        match refused_again(ledger, &item.header, &item.request, self.terminal(pt)) {
            Some(condition) => {
                let acts = Acts {
                    keep: None,
                    act: Some(refusal_of(item, condition)),
                };
                (acts, true)
            }
            None => (self.begin_first(ledger, pt, item, now), false),
        }
    }

    /// A request that has waited for a terminal that is ready is begun.
    fn begin_first(&mut self, ledger: &Ledger, pt: u16, item: Item, now: i64) -> Acts<'static>
        requires there { pt < length self.old.terminals }
        requires may { may_wait item.request }
        requires begins { IfSome (slice_get self.old.terminals pt) (MayBegin ledger.now.records (moment_of now) item.header item.request) }
        ensures row { (setup : Setup) (terminal : TheTerminal) → slice_get self.old.terminals pt ≡ Some terminal
            → IsRow ledger.now.records (begins_from_queue (known_with setup ledger.now.records self.old (moment_of now)) pt item.till item.header item.request terminal) self.new result }
        ensures kept { IfSome result.keep (MayBeKept ledger.now.records) }
        ensures wanted { IfSome result.act (IsWantedAt pt) }
    {
        let now = to_moment(now);
        let terminal = &mut self.terminals[usize::from(pt)];
        begin_request(
            terminal,
            ledger,
            pt,
            item.till,
            &item.header,
            &item.request,
            None,
            now,
        )
    }
}
