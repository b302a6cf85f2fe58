//! The requests that wait, in the words of what is owed: by their key, by their terminal and by their deadline.
ghost use Rattle.std.specs.Prelude.{◌≡◌, ◌<◌, ◌≤◌, ℕ, pos, true, false, [], ◌∷◌, ◌++◌, length, None, IfSome, OnOk, OnErr, option_map};
ghost use Rattle.gw_links.specs.Waiting.{of_seat};
ghost use Rattle.gw_owes.specs.Core.{Wait};
ghost use Rattle.gw_owes.specs.Waits.{first_waiting, queue_of, repeats_waiting, waiting_with};
ghost use Rattle.gw_core.specs.Queues.{AreLinesApart, IsSeatFor, TakesSought, first_overdue, is_first_of, as_wait, waits_in};

use crate::content::asks_the_same;
use gw_base::{Ident, Key};
use gw_bytes::{MOST_TERMINALS, MOST_TILLS, MOST_WAITING};
use gw_ledger::Ledger;
use gw_links::{Item, Lines};
use sale_msg::{Header, SaleRequest};
use std::alloc::{AllocError, Global};
use std::marker::Model;

/// The requests that wait for their terminals.
#[derive(Drop)]
pub(crate) struct Queues {
    pub(crate) lines: Lines,
}

impl Model for Queues {
    ghost use Rattle.std.specs.Prelude.{List};
    ghost use Rattle.gw_owes.specs.Core.{Wait as TheWait};
    ghost use Rattle.gw_core.specs.Queues.{AreLinesApart, waits_in};

    ghost Value = { List TheWait };

    ghost view = { λ queues. waits_in queues.lines };

    ghost invariant = { λ queues. AreLinesApart queues.lines };
}

/// Whether the first request at this seat is of this till.
fn is_first_of(lines: &Lines, seat: u16, till: u64) -> bool
    requires { AreLinesApart lines.now }
    ensures { result ≡ is_first_of till (of_seat seat lines.now) }
{
    match lines.first_of(seat) {
        None => false,
        Some(id) => lines.get(id).till == till,
    }
}

/// The seat at which requests of this till wait.
pub(crate) fn seat_of(lines: &Lines, till: u64) -> Option<u16>
    requires { AreLinesApart lines.now }
    ensures found { IfSome result (λ seat. (seat < 64) × (is_first_of till (of_seat seat lines.now) ≡ true)) }
    ensures none { (seat : ℕ) → result ≡ None → seat < 64 → is_first_of till (of_seat seat lines.now) ≡ false }
{
    for seat in 0..MOST_TILLS as u16 {
        if is_first_of(lines, seat, till) {
            return Some(seat);
        }
    }
    None
}

/// The first seat at which no request waits.
fn free_seat(lines: &Lines) -> Option<u16>
    ensures { IfSome result (λ seat. (seat < 64) × (of_seat seat lines.now ≡ [])) }
{
    for seat in 0..MOST_TILLS as u16 {
        if lines.first_of(seat).is_none() {
            return Some(seat);
        }
    }
    None
}

/// The seat for a request of this till.
fn seat_for(lines: &Lines, till: u64) -> Option<u16>
    requires { AreLinesApart lines.now }
    ensures { IfSome result (IsSeatFor till lines.now) }
{
    match seat_of(lines, till) {
        Some(seat) => Some(seat),
        None => free_seat(lines),
    }
}

/// A request that was refused comes back, and isn't kept.
fn refuse(refused: (Item, AllocError)) -> AllocError {
    refused.1
}

/// One more waits, at the seat of its till, under a key of its own.
fn add(lines: &mut Lines, item: Item) -> Result<(), AllocError>
    requires seat { IsSeatFor item.till lines.old item.seat }
    requires terminal { item.terminal < 32 }
    requires apart { AreLinesApart lines.old }
    requires unknown { waiting_with item.key (waits_in lines.old) ≡ None }
    requires few { length lines.old < 256 }
    ensures apart { AreLinesApart lines.new }
    ensures joined { OnOk result (waits_in lines.new ≡ waits_in lines.old ++ as_wait item ∷ []) }
    ensures refused { OnErr result (lines.new ≡ lines.old) }
{
    match lines.insert(item) {
        Ok(_) => Ok(()),
        Err(refused) => Err(refuse(refused)),
    }
}

impl Queues {
    /// None waits.
    pub(crate) fn new(alloc: Global) -> Queues
        ensures { result ≡ [] }
    {
        Queues {
            lines: Lines::new(alloc),
        }
    }

    /// How many wait.
    pub(crate) fn count(&self) -> usize
        ensures count { result ≡ length self.now }
        ensures few { result ≤ 256 }
    {
        let mut count = 0;
        for terminal in 0..MOST_TERMINALS as u16 {
            count += self.lines.count(terminal);
        }
        count
    }

    /// How many wait for this terminal.
    pub(crate) fn count_at(&self, pt: u16) -> usize
        ensures { result ≡ length (queue_of pt self.now) }
    {
        self.lines.count(pt)
    }

    /// One more waits, as the last.
    pub(crate) fn join(
        &mut self,
        key: Key,
        pt: u16,
        till: u64,
        deadline: i64,
        header: Header,
        request: SaleRequest,
    ) -> Result<(), AllocError>
        requires terminal { pt < 32 }
        requires unknown { waiting_with key self.old ≡ None }
        ensures joined { OnOk result (self.new ≡ self.old ++ record { key = key; pt = pt; till = till; deadline = deadline; header = header; request = request } ∷ []) }
        ensures refused { OnErr result (self.new ≡ self.old) }
    {
        // No more wait than 8 for each of 32 terminals, of at most 64 tills.
        if self.count() >= MOST_TERMINALS * usize::from(MOST_WAITING) {
            return Err(AllocError);
        }
        let seat = match seat_for(&self.lines, till) {
            Some(seat) => seat,
            None => return Err(AllocError),
        };
        let item = Item {
            key,
            till,
            seat,
            terminal: pt,
            deadline,
            header,
            request,
        };
        add(&mut self.lines, item)
    }

    /// Takes out the one with this key.
    pub(crate) fn take(&mut self, key: &Key) -> Option<Item>
        ensures { TakesSought (waiting_with key.now self.old) result self.old self.new }
    {
        match self.lines.find(key) {
            None => None,
            Some(id) => Some(self.lines.take(id)),
        }
    }

    /// Takes out the first that waits for this terminal.
    pub(crate) fn take_first(&mut self, pt: u16) -> Option<Item>
        ensures { TakesSought (first_waiting (queue_of pt self.old)) result self.old self.new }
    {
        match self.lines.front(pt) {
            None => None,
            Some(id) => Some(self.lines.take(id)),
        }
    }

    /// Takes out the first, by deadline, whose deadline is at or before this moment.
    pub(crate) fn take_overdue(&mut self, now: i64) -> Option<Item>
        ensures { (moment : ℕ) → now ≡ pos moment → TakesSought (first_overdue moment self.old) result self.old self.new }
    {
        match self.lines.due(now) {
            None => None,
            Some(id) => Some(self.lines.take(id)),
        }
    }

    /// The terminal for which the one with this key waits.
    pub(crate) fn terminal_of(&self, key: &Key) -> Option<u16>
        ensures { result ≡ option_map (λ (wait : Wait). wait.pt) (waiting_with key.now self.now) }
    {
        match self.lines.find(key) {
            None => None,
            Some(id) => Some(self.lines.get(id).terminal),
        }
    }

    /// Whether a request at this POIID asks for the same as the one that waits under this key.
    pub(crate) fn repeats(
        &self,
        ledger: &Ledger,
        poi: &Ident<40>,
        key: &Key,
        request: &SaleRequest,
    ) -> bool
        ensures { result ≡ repeats_waiting ledger.now.records poi.now request.now (waiting_with key.now self.now) }
    {
        match self.lines.find(key) {
            None => false,
            Some(id) => asks_the_same(ledger, poi, request, &self.lines.get(id).request),
        }
    }
}
