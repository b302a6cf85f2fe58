//! Login and Logout: at which POIIDs which SaleIDs are logged out.
ghost use Rattle.std.specs.Prelude.{◌≡◌, ◌<◌, ◌≤◌, [], false, true, nat_le, IfOk, length, vec_capacity};
ghost use Rattle.sale_reply.specs.Limits.{IsWithinLimits};
ghost use Rattle.gw_owes.specs.Diagnosis.{named_terminal};
ghost use Rattle.gw_owes.specs.Row.{Known};
ghost use Rattle.gw_owes.specs.SessionRows.{success_reply};
ghost use Rattle.gw_owes.specs.Sessions.{has_pair, is_logged_out, is_one_too_many, is_pair, is_session, logged_in_after, logged_out_after};
ghost use Rattle.gw_core.specs.ReplyOf.{IsGivenToSession, IsSameReply};

use crate::refusal::{self, refused, reply_header};
use crate::terminals::Core;
use crate::till::{Given, lies_within};
use gw_base::{Condition, Ident};
use gw_bytes::MOST_LOGGED_OUT;
use gw_owes::LoggedOut;
use sale_msg::{Header, SaleRequest};
use sale_reply::SaleReply;
use std::alloc::{AllocError, Global};
use std::marker::Model;

/// The pairs of a SaleID and a POIID that are logged out, with room for all that may be.
#[derive(Drop)]
pub(crate) struct Sessions {
    pairs: Vec<LoggedOut>,
}

impl Model for Sessions {
    ghost use Rattle.std.specs.Prelude.{◌≤◌, List, length, vec_capacity};
    ghost use Rattle.gw_owes.specs.declared.terminal.LoggedOut.{LoggedOut as Pair};

    ghost Value = { List Pair };

    ghost view = { λ sessions. sessions.pairs.items };

    ghost invariant = { λ sessions. (length sessions.pairs.items ≤ 1024) × (1024 ≤ vec_capacity sessions.pairs) };
}

/// Whether the pair is that of this SaleID and this POIID.
fn is_pair(sale: &Ident<40>, poi: &Ident<40>, pair: &LoggedOut) -> bool
    ensures { result ≡ is_pair sale.now poi.now pair.now }
{
    pair.sale == *sale && pair.poi == *poi
}

/// The pair is removed, where it is there.
fn remove_pair(pairs: &mut Vec<LoggedOut>, sale: &Ident<40>, poi: &Ident<40>)
    ensures others { pairs.new.items ≡ logged_in_after pairs.old.items sale.now poi.now }
    ensures count { length pairs.new.items ≤ length pairs.old.items }
    ensures room { vec_capacity pairs.new ≡ vec_capacity pairs.old }
{
    pairs.retain(|pair| !is_pair(sale, poi, pair));
}

impl Sessions {
    /// Nobody is logged out.
    pub(crate) fn new(alloc: Global) -> Result<Sessions, AllocError>
        ensures { IfOk result (λ sessions. sessions ≡ []) }
    {
        let pairs = Vec::with_capacity(alloc, MOST_LOGGED_OUT)?;
        Ok(Sessions { pairs })
    }

    /// Whether the SaleID is logged out at the POIID.
    pub(crate) fn is_logged_out(&self, sale: &Ident<40>, poi: &Ident<40>) -> bool
        ensures { result ≡ has_pair self.now sale.now poi.now }
    {
        self.pairs.iter().any(|pair| is_pair(sale, poi, pair))
    }

    /// Whether as many pairs are logged out as may be.
    fn is_full(&self) -> bool
        ensures { result ≡ nat_le 1024 (length self.now) }
    {
        self.pairs.len() >= MOST_LOGGED_OUT
    }

    /// The SaleID is logged out at the POIID.
    pub(crate) fn log_out(&mut self, sale: &Ident<40>, poi: &Ident<40>)
        requires room { has_pair self.old sale.now poi.now ≡ false → length self.old < 1024 }
        ensures { self.new ≡ logged_out_after self.old sale.now poi.now }
    {
        if self.is_logged_out(sale, poi) {
            return;
        }
        let pair = LoggedOut {
            sale: *sale,
            poi: *poi,
        };
        match self.pairs.push(pair) {
            Ok(()) => {}
            Err(_) => unreachable!(),
        }
    }

    /// The SaleID is logged in again at the POIID.
    pub(crate) fn log_in(&mut self, sale: &Ident<40>, poi: &Ident<40>)
        ensures { self.new ≡ logged_in_after self.old sale.now poi.now }
    {
        remove_pair(&mut self.pairs, sale, poi);
    }
}

/// Whether it is a Login or a Logout.
pub(crate) fn is_session(request: &SaleRequest) -> bool
    ensures { result ≡ is_session request.now }
{
    match request {
        SaleRequest::Login | SaleRequest::Logout => true,
        SaleRequest::Payment(_)
        | SaleRequest::Reversal(_)
        | SaleRequest::Abort(_)
        | SaleRequest::Status(_)
        | SaleRequest::Reconciliation(_)
        | SaleRequest::Display(_)
        | SaleRequest::Print(_)
        | SaleRequest::Diagnosis => false,
    }
}

impl Core {
    /// Whether the SaleID of this header is logged out at its POIID.
    pub(crate) fn is_logged_out(&self, header: &Header) -> bool
        ensures { result ≡ is_logged_out self.now header.now.sale header.now.poi }
    {
        self.sessions().is_logged_out(&header.sale, &header.poi)
    }

    /// Whether it is a Logout of one pair more than may be logged out.
    fn is_one_too_many(&self, header: &Header, request: &SaleRequest) -> bool
        ensures { result ≡ is_one_too_many self.now header.now request.now }
    {
        match request {
            SaleRequest::Logout => !self.is_logged_out(header) && self.sessions().is_full(),
            SaleRequest::Login
            | SaleRequest::Payment(_)
            | SaleRequest::Reversal(_)
            | SaleRequest::Abort(_)
            | SaleRequest::Status(_)
            | SaleRequest::Reconciliation(_)
            | SaleRequest::Display(_)
            | SaleRequest::Print(_)
            | SaleRequest::Diagnosis => false,
        }
    }
}

/// What a Login or a Logout gets: its refusal, or else it begins at its terminal.
pub(crate) fn session(core: &Core, header: Header, request: SaleRequest) -> Given
    requires { is_session request ≡ true }
    ensures { (known : Known) → known.core ≡ core.now → IsGivenToSession known header request (named_terminal core.now header.poi) result }
{
    match core.named(&header.poi) {
        None => Given::Reply(refused(&header, Condition::UnavailableDevice)),
        Some(pt) => {
            if core.is_one_too_many(&header, &request) {
                return Given::Reply(refused(&header, Condition::UnavailableService));
            }
            Given::Begins {
                pt,
                header,
                request,
                results: None,
            }
        }
    }
}

/// The reply to a Login or a Logout that succeeds.
pub(crate) fn success(header: &Header) -> SaleReply<'static>
    ensures reply { IsSameReply result (success_reply header.now) }
    ensures within { IsWithinLimits result }
{
    let reply = SaleReply::Plain {
        header: reply_header(header),
        verdict: refusal::success(),
    };
    lies_within(&reply);
    reply
}
