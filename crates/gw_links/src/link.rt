//! Links by index: the place of a waiting request on one of its three lists, and how it joins and leaves it.
ghost use Rattle.std.specs.Prelude.{◌≡◌, ◌≢◌, ◌+◌, ℕ, Option, Some, None, IsSome};
ghost use Rattle.slab.specs.Slab.{get};
ghost use Rattle.gw_links.specs.inner.Chain.{Joins, Inserts};
ghost use Rattle.gw_links.specs.inner.Table.{link_of, with_link, slot_link, next_in, prev_in, SameElsewhere, IsPlace};

use crate::item::Item;
use crate::steps::Steps;
use slab::Slab;
use std::sync::ledger::Ledger;

/// Which of the three lists a waiting request is on.
#[derive(Clone, Copy, PartialEq, Eq)]
pub(crate) enum Order {
    Till,
    Terminal,
    Deadline,
}

/// The places before and after one on a list, where `None` is the list's end. The link of the end itself has the last
/// place and the first.
#[derive(Clone, Copy, PartialEq, Eq)]
pub(crate) struct Link {
    pub(crate) prev: Option<usize>,
    pub(crate) next: Option<usize>,
}

impl Link {
    /// The end of an empty list.
    pub(crate) const NONE: Link = Link {
        prev: None,
        next: None,
    };
}

/// The links of a request on its three lists.
#[derive(Clone, Copy, PartialEq, Eq)]
pub(crate) struct Links {
    till: Link,
    terminal: Link,
    deadline: Link,
}

impl Links {
    /// On no list.
    pub(crate) const NONE: Links = Links {
        till: Link::NONE,
        terminal: Link::NONE,
        deadline: Link::NONE,
    };

    pub(crate) fn of(&self, order: Order) -> Link
        ensures { result ≡ link_of order self.now }
    {
        match order {
            Order::Till => self.till,
            Order::Terminal => self.terminal,
            Order::Deadline => self.deadline,
        }
    }

    fn set(&mut self, order: Order, link: Link)
        ensures { self.new ≡ with_link order self.old link }
    {
        match order {
            Order::Till => self.till = link,
            Order::Terminal => self.terminal = link,
            Order::Deadline => self.deadline = link,
        }
    }
}

/// A waiting request in the slab.
#[derive(Drop)]
pub(crate) struct Node {
    pub(crate) item: Item,
    /// How many requests were accepted before it.
    pub(crate) accepted: u64,
    pub(crate) links: Links,
}

/// The link of a place on the list with these ends.
fn link_at(nodes: &Slab<Node>, ends: &Link, order: Order, at: Option<usize>) -> Link
    requires { IsPlace nodes.now at }
    ensures prev { result.prev ≡ prev_in order nodes.now ends.now at }
    ensures next { result.next ≡ next_in order nodes.now ends.now at }
{
    match at {
        None => *ends,
        Some(id) => nodes[id].links.of(order),
    }
}

/// Lets the place `from` lead on to `to`.
fn join_next(
    nodes: &mut Slab<Node>,
    ends: &mut Link,
    order: Order,
    from: Option<usize>,
    to: Option<usize>,
)
    requires { IsPlace nodes.old from }
    ensures nexts { Joins (next_in order nodes.old ends.old) (next_in order nodes.new ends.new) from to }
    ensures prevs { (at : Option ℕ) → prev_in order nodes.new ends.new at ≡ prev_in order nodes.old ends.old at }
    ensures elsewhere { SameElsewhere order nodes.old nodes.new }
{
    match from {
        None => ends.next = to,
        Some(id) => {
            let links = &mut nodes[id].links;
            let link = links.of(order);
            links.set(order, Link { next: to, ..link });
        }
    }
}

/// Lets the place `from` lead back to `to`.
fn join_prev(
    nodes: &mut Slab<Node>,
    ends: &mut Link,
    order: Order,
    from: Option<usize>,
    to: Option<usize>,
)
    requires { IsPlace nodes.old from }
    ensures prevs { Joins (prev_in order nodes.old ends.old) (prev_in order nodes.new ends.new) from to }
    ensures nexts { (at : Option ℕ) → next_in order nodes.new ends.new at ≡ next_in order nodes.old ends.old at }
    ensures elsewhere { SameElsewhere order nodes.old nodes.new }
{
    match from {
        None => ends.prev = to,
        Some(id) => {
            let links = &mut nodes[id].links;
            let link = links.of(order);
            links.set(order, Link { prev: to, ..link });
        }
    }
}

/// Puts a request before the place `after` of a list that it isn't on.
pub(crate) fn attach(
    nodes: &mut Slab<Node>,
    ends: &mut Link,
    order: Order,
    id: usize,
    after: Option<usize>,
)
    requires live { IsSome (get nodes.old id) }
    requires place { IsPlace nodes.old after }
    requires before { IsPlace nodes.old (prev_in order nodes.old ends.old after) }
    requires apart { after ≢ Some id }
    requires before_apart { prev_in order nodes.old ends.old after ≢ Some id }
    ensures inserts { Inserts (next_in order nodes.old ends.old) (prev_in order nodes.old ends.old)
        (next_in order nodes.new ends.new) (prev_in order nodes.new ends.new)
        (prev_in order nodes.old ends.old after) (Some id) after }
    ensures elsewhere { SameElsewhere order nodes.old nodes.new }
{
    let before = link_at(nodes, ends, order, after).prev;
    join_prev(nodes, ends, order, Some(id), before);
    join_next(nodes, ends, order, Some(id), after);
    join_next(nodes, ends, order, before, Some(id));
    join_prev(nodes, ends, order, after, Some(id));
}

/// Joins the neighbours of a request on a list, in two steps.
pub(crate) fn detach<L: Ledger>(
    nodes: &mut Slab<Node>,
    ends: &mut Link,
    order: Order,
    id: usize,
    steps: &mut Steps<L>,
)
    requires live { IsSome (get nodes.old id) }
    requires next { IsPlace nodes.old (next_in order nodes.old ends.old (Some id)) }
    requires prev { IsPlace nodes.old (prev_in order nodes.old ends.old (Some id)) }
    ensures nexts { Joins (next_in order nodes.old ends.old) (next_in order nodes.new ends.new)
        (prev_in order nodes.old ends.old (Some id)) (next_in order nodes.old ends.old (Some id)) }
    ensures prevs { Joins (prev_in order nodes.old ends.old) (prev_in order nodes.new ends.new)
        (next_in order nodes.old ends.old (Some id)) (prev_in order nodes.old ends.old (Some id)) }
    ensures elsewhere { SameElsewhere order nodes.old nodes.new }
    ensures steps { steps.new ≡ steps.old + 2 }
{
    let Link { prev, next } = nodes[id].links.of(order);
    join_next(nodes, ends, order, prev, next);
    steps.add(1);
    join_prev(nodes, ends, order, next, prev);
    steps.add(1);
}
