//! What the gateway remembers, and what each event of a terminal makes of it.
ghost use Rattle.std.specs.Prelude.{◌≡◌, ◌<◌, ◌≤◌, ℕ, true, false, None, length, List, slice_get, IfOk, IfSome, Some, map, option_map};
ghost use Rattle.gw_base.specs.Setup.{IsSetup};
ghost use Rattle.gw_base.specs.Moment.{moment_of};
ghost use Rattle.gw_base.specs.declared.setup.Setup.{Setup};
ghost use Rattle.jrn_record.specs.declared.records.Record.{Record};
ghost use Rattle.zvt_msg.specs.Message.{value_of};
ghost use Rattle.gw_owes.specs.declared.terminal.Terminal.{Terminal as TheTerminal};
ghost use Rattle.gw_owes.specs.Core.{new_core, new_terminal};
ghost use Rattle.gw_owes.specs.Terminals.{registration};
ghost use Rattle.gw_owes.specs.Days.{days_served};
ghost use Rattle.gw_owes.specs.Diagnosis.{NamedTerminal, named_terminal, status_of_standing};
ghost use Rattle.gw_owes.specs.Links.{is_linked, link_row};
ghost use Rattle.gw_owes.specs.Greeting.{greeted_row};
ghost use Rattle.gw_owes.specs.Handling.{handled_row};
ghost use Rattle.gw_owes.specs.Deadlines.{due_row, is_due, is_late, late_row};
ghost use Rattle.gw_owes.specs.Dialogues.{HasItsDialogue};
ghost use Rattle.gw_owes.specs.Payments.{serve_row};
ghost use Rattle.gw_owes.specs.RecordLaws.{AreTerminalsInOrder};
ghost use Rattle.gw_owes.specs.Row.{Known};
ghost use Rattle.gw_owes.specs.SessionRows.{session_succeeds};
ghost use Rattle.gw_owes.specs.Sessions.{is_one_too_many, is_session};
ghost use Rattle.gw_core.specs.IsRow.{HasFewLines, IsRow, IsWantedAt, MayBeKept, alone, known_with, link_event_of, pt_of_timer, timer_row};
ghost use Rattle.gw_core.specs.ReplyOf.{ArePrepared, BeginsAt, IsKnownAt};

use crate::act::{Act, Acts};
use crate::beginning::begin_request;
use crate::days::days_served;
use crate::gateway::Gateway;
use crate::handling::{ask, handle, is_linked};
use crate::links::unlink;
use crate::queues::Queues;
use crate::sessions::{Sessions, is_session, success};
use gw_base::{Ident, Pt, Setup, to_moment};
use gw_ledger::{Ledger, law_fits};
use gw_owes::{Standing, Terminal, law_records};
use sale_msg::{Header, SaleRequest};
use sale_reply::{GlobalStatus, OutputResults};
use std::alloc::{AllocError, Global};
use std::marker::Model;
use zvt_msg::{Command, PtMessage};
use zvt_talk::Talk;

/// What the gateway remembers of a run.
#[derive(Drop)]
pub struct Core {
    pub(crate) terminals: Vec<Terminal>,
    pub(crate) queues: Queues,
    sessions: Sessions,
    /// The number of the next device request.
    device_requests: u64,
}

impl Model for Core {
    ghost use Rattle.std.specs.Prelude.{◌≤◌, length};
    ghost use Rattle.gw_owes.specs.Core.{Core as CoreValue};
    ghost use Rattle.gw_owes.specs.DeviceRequests.{greatest_device_number};

    ghost Value = { CoreValue };

    ghost view = { λ core. record { terminals = core.terminals.items; waits = core.queues; logged_out = core.sessions; device_requests = core.device_requests } };

    ghost use Rattle.gw_core.specs.IsRow.{HaveSettings};

    ghost invariant = { λ core. (length core.terminals.items ≤ 32) × HaveSettings core.terminals.items × (core.device_requests ≤ greatest_device_number) };
}

/// Something that may be due at a moment, of a terminal by its number.
#[derive(Clone, Copy)]
pub enum Timer {
    /// The cut of one that has been silent for too long.
    Silence(u16),
    /// The link of one that isn't linked.
    Link(u16),
}

/// A terminal as a run begins: it isn't linked, and is due at once.
fn new_terminal(pt: &Pt) -> Result<Terminal, AllocError>
    ensures { IfOk result (λ terminal. terminal ≡ new_terminal pt.now) }
{
    Ok(Terminal {
        pt: pt.clone()?,
        standing: Standing::Unlinked { due: None },
        talk: None,
        awaited: 0,
        asker: None,
    })
}

/// The terminals of a setup as a run begins.
fn new_terminals(alloc: Global, setup: &Setup) -> Result<Vec<Terminal>, AllocError>
    ensures { IfOk result (λ terminals. terminals.items ≡ map new_terminal setup.now.terminals) }
{
    let mut terminals = Vec::with_capacity(alloc, setup.terminals.as_slice().len())?;
    for pt in setup.terminals.as_slice() {
        terminals.push(new_terminal(pt)?)?;
    }
    Ok(terminals)
}

/// The status that a Diagnosis reports of a terminal of this standing.
fn status_of_standing(standing: &Standing) -> GlobalStatus
    ensures { result ≡ status_of_standing standing.now }
{
    match standing {
        Standing::Unlinked { .. } | Standing::Registering | Standing::Enquiring => {
            GlobalStatus::Unreachable
        }
        Standing::Ready { .. } => GlobalStatus::Ready,
        Standing::Serving { .. } => GlobalStatus::Busy,
        Standing::Aside { .. } => GlobalStatus::Maintenance,
    }
}

/// The registration of a terminal.
fn registration(pt: &Pt) -> Command
    ensures { result ≡ registration pt.now }
{
    Command::Register {
        password: pt.password,
        config: pt.config,
        currency: pt.currency.number(),
    }
}

/// Whether the dialogue that runs has a deadline at or before this moment.
fn is_late(talk: &Option<Talk>, now: i64) -> bool
    ensures { result ≡ is_late (moment_of now) talk.now }
{
    match talk {
        Some(talk) => talk.deadline() <= to_moment(now),
        None => false,
    }
}

/// Whether a terminal of this standing is to be linked at this moment.
fn is_due(standing: &Standing, now: i64) -> bool
    ensures { result ≡ is_due (moment_of now) standing.now }
{
    match standing {
        Standing::Unlinked { due: None } => true,
        Standing::Unlinked { due: Some(due) } => *due <= to_moment(now).unsigned_abs(),
        _ => false,
    }
}

impl Core {
    /// What is remembered as a run with this setup begins.
    pub fn open(alloc: Global, setup: &Setup) -> Result<Core, AllocError>
        requires { IsSetup setup.now }
        ensures { IfOk result (λ core. core ≡ new_core setup.now) }
    {
        let terminals = new_terminals(alloc, setup)?;
        let sessions = Sessions::new(alloc)?;
        Ok(Core {
            terminals,
            queues: Queues::new(alloc),
            sessions,
            device_requests: 0,
        })
    }

    /// How many terminals there are; at most 32.
    pub fn count(&self) -> u16
        ensures count { result ≡ length self.now.terminals }
        ensures few { result ≤ 32 }
    {
        self.terminals.len() as u16
    }

    /// The number of the terminal that has this POIID.
    pub fn named(&self, poi: &Ident<40>) -> Option<u16>
        ensures { result ≡ option_map (λ (n : NamedTerminal). n.number) (named_terminal self.now poi.now) }
    {
        for pt in 0..self.count() {
            if self.terminals[usize::from(pt)].pt.poi == *poi {
                return Some(pt);
            }
        }
        None
    }

    /// Which SaleIDs are logged out at which POIIDs.
    pub(crate) fn sessions(&self) -> &Sessions
        ensures { result.now ≡ self.now.logged_out }
    {
        &self.sessions
    }

    /// The requests that wait.
    pub(crate) fn queues(&self) -> &Queues
        ensures { result.now ≡ self.now.waits }
    {
        &self.queues
    }

    /// How many terminals serve an end of day.
    pub fn days_served(&self) -> u16
        ensures count { result ≡ days_served self.now.terminals }
        ensures few { result ≤ 32 }
    {
        days_served(&self.terminals) as u16
    }

    /// The terminal of this number.
    pub(crate) fn terminal(&self, pt: u16) -> &Terminal
        requires there { pt < length self.now.terminals }
        ensures { slice_get self.now.terminals pt ≡ Some result.now }
    {
        &self.terminals[usize::from(pt)]
    }

    /// The standing of a terminal.
    pub fn standing(&self, pt: u16) -> &Standing
        requires there { pt < length self.now.terminals }
        ensures { IfSome (slice_get self.now.terminals pt) (λ (terminal : TheTerminal). result.now ≡ terminal.standing) }
    {
        &self.terminals[usize::from(pt)].standing
    }

    /// The status that a Diagnosis reports of a terminal.
    pub fn status(&self, pt: u16) -> GlobalStatus
        requires there { pt < length self.now.terminals }
        ensures { IfSome (slice_get self.now.terminals pt) (λ (terminal : TheTerminal). result ≡ status_of_standing terminal.standing) }
    {
        status_of_standing(&self.terminals[usize::from(pt)].standing)
    }

    /// Whether the terminal has a connection.
    pub fn is_linked(&self, pt: u16) -> bool
        requires there { pt < length self.now.terminals }
        ensures { IfSome (slice_get self.now.terminals pt) (λ (terminal : TheTerminal). result ≡ is_linked terminal.standing) }
    {
        is_linked(&self.terminals[usize::from(pt)].standing)
    }

    /// The acknowledgement or refusal of a message; `None` for an Ack or a Nack, and where the terminal isn't linked.
    pub fn greet(&self, pt: u16, message: &PtMessage<'_>) -> Option<Act<'static>>
        requires there { pt < length self.now.terminals }
        ensures wanted { IfSome result (IsWantedAt pt) }
        ensures row { (setup : Setup) (kept : List Record) (moment : ℕ)
            → IsRow kept (greeted_row (known_with setup kept self.now moment) pt (value_of message.now)) self.now (alone result) }
    {
        if !is_linked(&self.terminals[usize::from(pt)].standing) {
            return None;
        }
        match message {
            PtMessage::Ack | PtMessage::Nack(_) => None,
            PtMessage::Other => Some(Act::Refuse(pt)),
            PtMessage::Intermediate(_)
            | PtMessage::Line(_)
            | PtMessage::Block(_)
            | PtMessage::Status(_)
            | PtMessage::Completion
            | PtMessage::Abort(_) => Some(Act::Ack(pt)),
        }
    }

    /// What follows from a message that was acknowledged or refused, by the records. What it shows or prints becomes a device request to
    /// the till of what is served, which has the next number.
    pub fn on_pt<'a>(
        &mut self,
        ledger: &Ledger,
        pt: u16,
        message: &PtMessage<'a>,
        now: i64,
    ) -> Acts<'a>
        requires there { pt < length self.old.terminals }
        requires printed { HasFewLines (value_of message.now) }
        requires dialogue { IfSome (slice_get self.old.terminals pt) HasItsDialogue }
        requires order { AreTerminalsInOrder ledger.now.records self.old }
        ensures row { (setup : Setup)
            → IsRow ledger.now.records (handled_row (known_with setup ledger.now.records self.old (moment_of now)) pt (value_of message.now)) self.new result }
        ensures kept { IfSome result.keep (MayBeKept ledger.now.records) }
        ensures wanted { IfSome result.act (IsWantedAt pt) }
    {
        let now = to_moment(now);
        let mut number = self.device_requests;
        let terminal = &mut self.terminals[usize::from(pt)];
        let acts = handle(terminal, &mut number, ledger, pt, message, now);
        self.device_requests = number;
        acts
    }

    /// What a request of this till asks for begins at the terminal: a Login or a Logout succeeds; the Intent of a payment or a reversal is
    /// kept, and then the terminal is asked; a reconciliation of the till's own is settled; an end of day and a display are asked of the
    /// terminal; at an Abort it is to stop what it serves.
    ///
    /// The results are those with which the request was given to begin.
    pub fn begin(
        &mut self,
        gateway: &Gateway,
        ledger: &Ledger,
        pt: u16,
        till: u64,
        header: &Header,
        request: &SaleRequest,
        results: Option<OutputResults>,
        now: i64,
    ) -> Acts<'static>
        requires there { pt < length self.old.terminals }
        requires dialogue { IfSome (slice_get self.old.terminals pt) HasItsDialogue }
        requires order { AreTerminalsInOrder ledger.now.records self.old }
        requires slots { gateway.now.slots ≤ 1000000 }
        requires prepared { ArePrepared request.now results }
        requires begins { BeginsAt gateway.now ledger.now.records self.old (moment_of now) pt header.now request.now }
        ensures row { (known : Known) → IsKnownAt gateway.now ledger.now.records self.old (moment_of now) known
            → IsRow ledger.now.records (serve_row known pt till header.now request.now) self.new result }
        ensures kept { IfSome result.keep (MayBeKept ledger.now.records) }
        ensures wanted { IfSome result.act (IsWantedAt pt) }
    {
        if is_session(request) {
            return self.begin_session(till, header, request);
        }
        self.begin_at_terminal(gateway, ledger, pt, till, header, request, results, now)
    }

    /// A Login or a Logout succeeds.
    fn begin_session(&mut self, till: u64, header: &Header, request: &SaleRequest) -> Acts<'static>
        requires session { is_session request.now ≡ true }
        requires room { is_one_too_many self.old header.now request.now ≡ false }
        ensures row { (setup : Setup) (kept : List Record) (moment : ℕ)
            → IsRow kept (session_succeeds (known_with setup kept self.old moment) till header.now request.now) self.new result }
        ensures kept { result.keep ≡ None }
        ensures wanted { (pt : ℕ) → IfSome result.act (IsWantedAt pt) }
        ensures terminals { self.new.terminals ≡ self.old.terminals }
    {
        match request {
            SaleRequest::Login => self.sessions.log_in(&header.sale, &header.poi),
            SaleRequest::Logout => self.sessions.log_out(&header.sale, &header.poi),
            _ => unreachable!(),
        }
        Acts {
            keep: None,
            act: Some(Act::SendTill(till, success(header))),
        }
    }

    /// A terminal begins what another request of this till asks for.
    fn begin_at_terminal(
        &mut self,
        gateway: &Gateway,
        ledger: &Ledger,
        pt: u16,
        till: u64,
        header: &Header,
        request: &SaleRequest,
        results: Option<OutputResults>,
        now: i64,
    ) -> Acts<'static>
        requires there { pt < length self.old.terminals }
        requires dialogue { IfSome (slice_get self.old.terminals pt) HasItsDialogue }
        requires order { AreTerminalsInOrder ledger.now.records self.old }
        requires slots { gateway.now.slots ≤ 1000000 }
        requires prepared { ArePrepared request.now results }
        requires other { is_session request.now ≡ false }
        requires begins { BeginsAt gateway.now ledger.now.records self.old (moment_of now) pt header.now request.now }
        ensures row { (known : Known) → IsKnownAt gateway.now ledger.now.records self.old (moment_of now) known
            → IsRow ledger.now.records (serve_row known pt till header.now request.now) self.new result }
        ensures kept { IfSome result.keep (MayBeKept ledger.now.records) }
        ensures wanted { IfSome result.act (IsWantedAt pt) }
    {
        ledger.law_folded();
        law_fits();
        law_records();
        let now = to_moment(now);
        let terminal = &mut self.terminals[usize::from(pt)];
        begin_request(terminal, ledger, pt, till, header, request, results, now)
    }

    /// A link is made, or isn't there: it could not be made, or is lost. The till of a payment or a reversal that the terminal serves is
    /// still remembered, and is sent nothing; that of an end of day or a display gets its reply.
    pub fn on_link(&mut self, pt: u16, up: bool, now: i64) -> Option<Act<'static>>
        requires there { pt < length self.old.terminals }
        ensures row { (setup : Setup) (kept : List Record)
            → IsRow kept (link_row (known_with setup kept self.old (moment_of now)) pt (link_event_of up)) self.new (alone result) }
        ensures wanted { IfSome result (IsWantedAt pt) }
    {
        let now = to_moment(now);
        let terminal = &mut self.terminals[usize::from(pt)];
        if up {
            terminal.awaited = 0;
            let command = registration(&terminal.pt);
            return Some(ask(terminal, pt, command, Standing::Registering, now));
        }
        unlink(terminal, now)
    }

    /// The call that is due at this moment; `None` where it isn't due.
    pub fn on_moment(&self, timer: Timer, now: i64) -> Option<Act<'static>>
        requires there { pt_of_timer timer < length self.now.terminals }
        ensures wanted { IfSome result (IsWantedAt (pt_of_timer timer)) }
        ensures row { (setup : Setup) (kept : List Record) → IsRow kept (timer_row (known_with setup kept self.now (moment_of now)) timer) self.now (alone result) }
    {
        match timer {
            Timer::Silence(pt) => self.on_silence(pt, now),
            Timer::Link(pt) => self.on_due(pt, now),
        }
    }

    /// The cut of a terminal that has been silent for too long.
    fn on_silence(&self, pt: u16, now: i64) -> Option<Act<'static>>
        requires there { pt < length self.now.terminals }
        ensures wanted { IfSome result (IsWantedAt pt) }
        ensures row { (setup : Setup) (kept : List Record) → IsRow kept (late_row (known_with setup kept self.now (moment_of now)) pt) self.now (alone result) }
    {
        if is_late(&self.terminals[usize::from(pt)].talk, now) {
            Some(Act::CutPt(pt))
        } else {
            None
        }
    }

    /// The link of a terminal that is due.
    fn on_due(&self, pt: u16, now: i64) -> Option<Act<'static>>
        requires there { pt < length self.now.terminals }
        ensures wanted { IfSome result (IsWantedAt pt) }
        ensures row { (setup : Setup) (kept : List Record) → IsRow kept (due_row (known_with setup kept self.now (moment_of now)) pt) self.now (alone result) }
    {
        if is_due(&self.terminals[usize::from(pt)].standing, now) {
            Some(Act::Link(pt))
        } else {
            None
        }
    }
}
