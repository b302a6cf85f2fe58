//! The terminals that are played, and what is still to come of them.
ghost use Rattle.std.specs.Prelude.{◌≡◌, ◌≤◌, ◌<◌, ◌∷◌, [], ◌++◌, not, filter, length, IfOk, OnOk};
ghost use Rattle.std.specs.Option.{option_copied};
ghost use Rattle.gw_site.specs.Outside.{Outside};
ghost use Rattle.gw_script.specs.site.Peers.{book_of_peer, bytes_coming, coming_of, cut_coming, is_event_of, peers_after_bytes, peers_after_crash, peers_after_link, quiet_peers};
ghost use Rattle.sim_script.specs.Values.{script_event_value};
ghost use Rattle.sim_site.specs.Connected.{HasConnections};
ghost use Rattle.sim_site.specs.Peering.{IsRelinked, IsNextComing, IsReply, IsUsedUp, coming_value, event_value, peers_by_link};

use crate::connections::Connections;
use gw_base::Bytes;
use gw_bytes::LONGEST_CHUNK;
use pt_core::{Answer, Book, Terminal};
use sim_script::{Chunk, ScriptEvent};
use std::alloc::{AllocError, Global};
use std::collections::VecDeque;

/// The terminals that are played, by their numbers, and what is still to come of them.
#[derive(Drop)]
pub(crate) struct Peers {
    pub(crate) terminals: Vec<Terminal>,
    /// What polls bring before the script goes on.
    pub(crate) coming: VecDeque<ScriptEvent>,
}

/// Whether it comes of the terminal of this number.
fn is_event_of(event: &ScriptEvent, pt: u16) -> bool
    ensures { result ≡ is_event_of pt (script_event_value event.now) }
{
    match event {
        ScriptEvent::FromPt(other, _) => *other == pt,
        ScriptEvent::Lose(other) => *other == pt,
        ScriptEvent::Open(_)
        | ScriptEvent::Close(_)
        | ScriptEvent::FromTill(_, _)
        | ScriptEvent::Tick => false,
    }
}

/// Adds an event to what is still to come.
fn push_coming(coming: &mut VecDeque<ScriptEvent>, event: ScriptEvent) -> Result<(), AllocError>
    ensures { OnOk result (coming_value coming.new.items ≡ coming_value coming.old.items ++ script_event_value event ∷ []) }
{
    coming.push_back(event)?;
    Ok(())
}

/// Adds bytes of a terminal to what is still to come, where there are any.
fn push_bytes(
    coming: &mut VecDeque<ScriptEvent>,
    alloc: Global,
    pt: u16,
    bytes: Bytes,
) -> Result<(), AllocError>
    requires { length bytes ≤ 4096 }
    ensures { OnOk result (coming_value coming.new.items ≡ coming_value coming.old.items ++ bytes_coming pt bytes) }
{
    if bytes.as_slice().is_empty() {
        return Ok(());
    }
    let chunk = Chunk::new(alloc, bytes)?;
    push_coming(coming, ScriptEvent::FromPt(pt, chunk))
}

/// Adds the cut of a terminal to what is still to come, where it cuts.
fn push_cut(coming: &mut VecDeque<ScriptEvent>, pt: u16, cut: bool) -> Result<(), AllocError>
    ensures { OnOk result (coming_value coming.new.items ≡ coming_value coming.old.items ++ cut_coming pt cut) }
{
    if !cut {
        return Ok(());
    }
    push_coming(coming, ScriptEvent::Lose(pt))
}

/// Adds what a terminal has sent to what is still to come.
fn push_sent(
    coming: &mut VecDeque<ScriptEvent>,
    alloc: Global,
    pt: u16,
    sent: Answer,
) -> Result<(), AllocError>
    ensures { OnOk result (coming_value coming.new.items ≡ coming_value coming.old.items ++ coming_of pt sent.bytes sent.cut) }
{
    if sent.bytes.as_slice().len() > LONGEST_CHUNK {
        return push_cut(coming, pt, true);
    }
    push_bytes(coming, alloc, pt, sent.bytes)?;
    push_cut(coming, pt, sent.cut)
}

/// A terminal hears bytes: what it sends.
fn hear_at(
    terminals: &mut Vec<Terminal>,
    alloc: Global,
    at: usize,
    bytes: &[u8],
) -> Result<Answer, AllocError>
    requires { at < length terminals.old.items }
    ensures { IfOk result (λ sent. IsReply terminals.old.items at bytes.now terminals.new.items sent) }
{
    terminals[at].on_bytes(alloc, bytes)
}

/// A terminal has a new link.
fn link_at(terminals: &mut Vec<Terminal>, at: usize)
    requires { at < length terminals.old.items }
    ensures { IsRelinked terminals.old.items at terminals.new.items }
{
    terminals[at].on_link();
}

/// What was to come of a terminal is lost.
fn drop_coming(coming: &mut VecDeque<ScriptEvent>, pt: u16)
    ensures { coming_value coming.new.items ≡ filter (λ event. not (is_event_of pt event)) (coming_value coming.old.items) }
{
    coming.retain(|event| !is_event_of(event, pt));
}

/// The first of what is still to come that a poll can bring: those before it are lost with their links.
fn next_coming(coming: &mut VecDeque<ScriptEvent>, connections: &Connections) -> Option<ScriptEvent>
    ensures next { (o : Outside) → HasConnections o connections.now
        → IsNextComing o (coming_value coming.old.items) (coming_value coming.new.items) (event_value result) }
    ensures left { IsUsedUp (event_value result) (coming_value coming.new.items) }
{
    while let Some(event) = coming.pop_front() {
        if connections.applies(&event) {
            return Some(event);
        }
    }
    None
}

impl Peers {
    ghost use Rattle.sim_site.specs.Peering.{peers_value};

    /// These terminals, of which nothing is to come.
    pub(crate) fn of(alloc: Global, terminals: Vec<Terminal>) -> Peers
        ensures { peers_value result ≡ quiet_peers terminals.items }
    {
        Peers {
            terminals,
            coming: VecDeque::new(alloc),
        }
    }

    /// Bytes were sent to the terminal of this number, which hears them where it is played.
    pub(crate) fn hear(&mut self, alloc: Global, pt: u16, bytes: &[u8]) -> Result<(), AllocError>
        ensures { OnOk result (peers_value self.new ≡ peers_after_bytes pt bytes.now (peers_value self.old)) }
    {
        let at = usize::from(pt);
        if at >= self.terminals.len() {
            return Ok(());
        }
        let sent = hear_at(&mut self.terminals, alloc, at, bytes)?;
        push_sent(&mut self.coming, alloc, pt, sent)
    }

    /// The terminal of this number was linked.
    fn link(&mut self, pt: u16)
        ensures { peers_value self.new ≡ peers_after_link pt (peers_value self.old) }
    {
        let at = usize::from(pt);
        if at >= self.terminals.len() {
            return;
        }
        link_at(&mut self.terminals, at);
        drop_coming(&mut self.coming, pt);
    }

    /// The terminal of this number was linked, unless this failed.
    pub(crate) fn link_unless(&mut self, pt: u16, fails: bool)
        ensures { peers_value self.new ≡ peers_by_link fails pt (peers_value self.old) }
    {
        if !fails {
            self.link(pt);
        }
    }

    /// The power has failed, which cuts all links.
    pub(crate) fn cut_all(&mut self)
        ensures { peers_value self.new ≡ peers_after_crash (peers_value self.old) }
    {
        self.coming.clear();
    }

    /// The book of the terminal of this number, if it is played.
    pub(crate) fn book(&self, pt: u16) -> Option<&Book>
        ensures { option_copied result ≡ book_of_peer (peers_value self.now) pt }
    {
        match self.terminals.get(usize::from(pt)) {
            Some(terminal) => Some(terminal.book()),
            None => None,
        }
    }

    /// What a poll brings of the terminals, if it brings anything of them.
    pub(crate) fn next(&mut self, connections: &Connections) -> Option<ScriptEvent>
        ensures coming { (o : Outside) → HasConnections o connections.now
            → IsNextComing o (peers_value self.old).coming (peers_value self.new).coming (event_value result) }
        ensures left { IsUsedUp (event_value result) (peers_value self.new).coming }
        ensures terminals { self.new.terminals ≡ self.old.terminals }
    {
        next_coming(&mut self.coming, connections)
    }
}
