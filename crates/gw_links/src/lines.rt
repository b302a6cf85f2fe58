//! The waiting requests, on a list at their terminal, on one of their till and on one by deadline.
ghost use Rattle.gw_links.specs.inner.Table.{ends_at, no_link};
ghost use Rattle.std.specs.Prelude.{ℕ, ◌≡◌, ◌≢◌, ◌+◌, ◌≤◌, ◌<◌, [], ◌∷◌, ◌++◌, length, None, Some, IsSome, IsNone, IfOk, IfErr, OnErr, IfSome};
ghost use Rattle.gw_links.specs.Waiting.{item_of, without_request, of_seat, at_terminal, by_deadline, later_than, due_at, first_id, with_key};

use crate::item::{Item, LineId, has_key, is_due_before, is_later};
use crate::link::{Link, Links, Node, Order, attach, detach};
use crate::steps::Steps;
use gw_base::Key;
use gw_bytes::{MOST_TERMINALS, MOST_TILLS};
use slab::Slab;
use std::alloc::{AllocError, Global};
use std::marker::{Brand, Model};
use std::sync::ledger::{Blank, Ledger};

/// The requests that wait for their terminals.
///
/// A contract sees one list, in the order of acceptance, of the requests with their ids.
#[derive(Drop)]
pub struct Lines {
    nodes: Slab<Node>,
    /// The ends of the list of the till at each seat.
    tills: [Link; MOST_TILLS],
    /// The ends of the list at each terminal.
    terminals: [Link; MOST_TERMINALS],
    /// The ends of the list by deadline.
    deadlines: Link,
    /// How many requests were accepted.
    accepted: u64,
}

impl Model for Lines {
    ghost use Rattle.std.specs.Prelude.{List};
    ghost use Rattle.gw_links.specs.Waiting.{Waiting};

    ghost Value = { List Waiting };

    ghost use Rattle.gw_links.specs.inner.Table.{accepted_in, IsSoundTable};

    ghost view = { λ l. accepted_in l.nodes l.accepted };

    ghost invariant = { λ l. IsSoundTable l.nodes l.tills l.terminals l.deadlines l.accepted (accepted_in l.nodes l.accepted) };
}

/// The ends of lists that are empty.
fn empty_lists<const N: usize>() -> [Link; N]
    ensures none { (at : ℕ) → ends_at result at ≡ no_link }
    ensures len { length result ≡ N }
{
    [Link::NONE; N]
}

impl Lines {
    /// No request waits.
    pub fn new(alloc: Global) -> Lines
        ensures { result ≡ [] }
    {
        Lines {
            nodes: Slab::new(alloc),
            tills: empty_lists(),
            terminals: empty_lists(),
            deadlines: Link::NONE,
            accepted: 0,
        }
    }

    /// Accepts a request as the last one. Where memory is refused, nothing changes and the request comes back.
    pub fn insert(&mut self, item: Item) -> Result<LineId, (Item, AllocError)>
        requires seat { item.seat < 64 }
        requires terminal { item.terminal < 32 }
        ensures added { IfOk result (λ id. self.new ≡ self.old ++ record { id = id; item = item } ∷ []) }
        ensures fresh { IfOk result (λ id. item_of self.old id ≡ None) }
        ensures refused { OnErr result (self.new ≡ self.old) }
        ensures returned { IfErr result (λ refused. refused.0 ≡ item) }
    {
        // The number of acceptance orders requests of one deadline, so it never wraps.
        if self.accepted == u64::MAX {
            return Err((item, AllocError));
        }
        let after = self.first_later(&item);
        let seat = usize::from(item.seat);
        let terminal = usize::from(item.terminal);
        let node = Node {
            item,
            accepted: self.accepted,
            links: Links::NONE,
        };
        let id = match self.nodes.insert(node) {
            Ok(id) => id,
            Err(refused) => return Err((refused.value.item, AllocError)),
        };
        attach(
            &mut self.nodes,
            &mut self.tills[seat],
            Order::Till,
            id,
            None,
        );
        attach(
            &mut self.nodes,
            &mut self.terminals[terminal],
            Order::Terminal,
            id,
            None,
        );
        attach(
            &mut self.nodes,
            &mut self.deadlines,
            Order::Deadline,
            id,
            after,
        );
        self.accepted += 1;
        Ok(LineId::of(id))
    }

    /// The place on the list by deadline of the first request that is due later than this one.
    fn first_later(&self, item: &Item) -> Option<usize>
        ensures { result ≡ first_id (later_than item.now.deadline (by_deadline self.now)) }
    {
        let mut at = self.deadlines.next;
        while let Some(id) = at {
            let node = &self.nodes[id];
            if is_due_before(item, &node.item) {
                return Some(id);
            }
            at = node.links.of(Order::Deadline).next;
        }
        None
    }

    /// Takes a request out; the others keep their orders.
    pub fn take(&mut self, id: LineId) -> Item
        requires live { IsSome (item_of self.old id) }
        ensures item { item_of self.old id ≡ Some result }
        ensures removed { self.new ≡ without_request id self.old }
    {
        self.take_with::<Brand>(id, Blank::new(1))
    }

    fn take_with<L: Ledger>(&mut self, id: LineId, blank: Blank) -> Item
        requires live { IsSome (item_of self.old id) }
        requires name { blank.name ≡ L.name }
        requires parts { blank.parts ≡ L.parts }
        requires some { 0 < blank.parts }
        ensures item { item_of self.old id ≡ Some result }
        ensures removed { self.new ≡ without_request id self.old }
    {
        let mut steps = Steps::<L>::none(blank);
        self.take_counted(id, &mut steps)
    }

    /// As `take`, and counts its steps: each write of a neighbour's link or of a list's end, and the removal.
    pub fn take_counted<L: Ledger>(&mut self, id: LineId, steps: &mut Steps<L>) -> Item
        requires live { IsSome (item_of self.old id) }
        ensures item { item_of self.old id ≡ Some result }
        ensures removed { self.new ≡ without_request id self.old }
        ensures few { steps.new ≤ steps.old + 7 }
    {
        let id = id.index();
        let taken = &self.nodes[id].item;
        let seat = usize::from(taken.seat);
        let terminal = usize::from(taken.terminal);
        detach(
            &mut self.nodes,
            &mut self.tills[seat],
            Order::Till,
            id,
            steps,
        );
        detach(
            &mut self.nodes,
            &mut self.terminals[terminal],
            Order::Terminal,
            id,
            steps,
        );
        detach(
            &mut self.nodes,
            &mut self.deadlines,
            Order::Deadline,
            id,
            steps,
        );
        steps.add(1);
        self.nodes.remove(id).item
    }

    /// The request that waits longest at a terminal.
    pub fn front(&self, terminal: u16) -> Option<LineId>
        ensures first { result ≡ first_id (at_terminal terminal self.now) }
        ensures live { IfSome result (λ id. IsSome (item_of self.now id)) }
    {
        let id = self.first_at(terminal)?;
        Some(LineId::of(id))
    }

    fn first_at(&self, terminal: u16) -> Option<usize>
        ensures { result ≡ first_id (at_terminal terminal self.now) }
    {
        let ends = &self.terminals;
        let terminal = usize::from(terminal);
        if terminal >= MOST_TERMINALS {
            return None;
        }
        ends[terminal].next
    }

    /// The request that the till at a seat waits for longest.
    pub fn first_of(&self, seat: u16) -> Option<LineId>
        ensures first { result ≡ first_id (of_seat seat self.now) }
        ensures live { IfSome result (λ id. IsSome (item_of self.now id)) }
    {
        let id = self.first_at_seat(seat)?;
        Some(LineId::of(id))
    }

    fn first_at_seat(&self, seat: u16) -> Option<usize>
        ensures { result ≡ first_id (of_seat seat self.now) }
    {
        let ends = &self.tills;
        let seat = usize::from(seat);
        if seat >= MOST_TILLS {
            return None;
        }
        ends[seat].next
    }

    /// The first request whose deadline is at or before now, by deadline and then by acceptance.
    pub fn due(&self, now: i64) -> Option<LineId>
        ensures first { result ≡ first_id (due_at now (by_deadline self.now)) }
        ensures live { IfSome result (λ id. IsSome (item_of self.now id)) }
    {
        let id = self.deadlines.next?;
        let first = &self.nodes[id];
        if is_later(&first.item, now) {
            return None;
        }
        Some(LineId::of(id))
    }

    /// The first request with this key, by deadline and then by acceptance.
    pub fn find(&self, key: &Key) -> Option<LineId>
        ensures first { result ≡ first_id (with_key key.now (by_deadline self.now)) }
        ensures found { IfSome result (λ id. IfSome (item_of self.now id) (λ item. item.key ≡ key.now)) }
        ensures live { IfSome result (λ id. IsSome (item_of self.now id)) }
        ensures none { (id : _) → IsNone result → IfSome (item_of self.now id) (λ item. item.key ≢ key.now) }
    {
        let mut at = self.deadlines.next;
        while let Some(id) = at {
            let node = &self.nodes[id];
            if has_key(&node.item, key) {
                return Some(LineId::of(id));
            }
            at = node.links.of(Order::Deadline).next;
        }
        None
    }

    /// How many requests wait at a terminal.
    pub fn count(&self, terminal: u16) -> usize
        ensures { result ≡ length (at_terminal terminal self.now) }
    {
        let nodes = &self.nodes;
        let mut count = 0;
        let mut at = self.first_at(terminal);
        while let Some(id) = at {
            count += 1;
            at = nodes[id].links.of(Order::Terminal).next;
        }
        count
    }

    /// A waiting request.
    pub fn get(&self, id: LineId) -> &Item
        requires { IsSome (item_of self.now id) }
        ensures { item_of self.now id ≡ Some result.now }
    {
        &self.nodes[id.index()].item
    }
}
