//! The orders in which waiting requests come out, as rows.
ghost use Rattle.std.specs.Prelude.{◌≡◌, ◌≤◌, ◌<◌, IsSome};
ghost use Rattle.gw_links.specs.Waiting.{item_of, without_request};

use gw_base::{Ident, Key};
use gw_links::{Item, LineId, Lines, Steps};
use sale_values::{Class, Header, Kind, SaleRequest};
use std::marker::Brand;
use std::process::Abort;
use std::sync::ledger::{Blank, Ledger};
use std::test::Fail;

fn item(service: &[u8], seat: u16, terminal: u16, deadline: i64) -> Option<Item> {
    let key = Key {
        sale: Ident::of(b"S1")?,
        poi: Ident::of(b"T1")?,
        service: Ident::of(service)?,
    };
    Some(Item {
        key,
        till: 1,
        seat,
        terminal,
        deadline,
        header: Header {
            class: Class::Service,
            category: Ident::of(b"Diagnosis")?,
            kind: Kind::Request,
            service: Some(key.service),
            device: None,
            sale: key.sale,
            poi: key.poi,
        },
        request: SaleRequest::Diagnosis,
    })
}

// Of each function below that calls the lines nothing is said, so that those that call it have no facts to carry along.

/// Adds a request. One that is refused comes back.
fn add(lines: &mut Lines, waiting: Item) -> Result<LineId, Item> {
    if waiting.seat >= 64 || waiting.terminal >= 32 {
        return Err(waiting);
    }
    match lines.insert(waiting) {
        Ok(id) => Ok(id),
        Err((refused, _)) => Err(refused),
    }
}

fn count(lines: &Lines, terminal: u16) -> usize {
    lines.count(terminal)
}

fn due(lines: &Lines, now: i64) -> Option<LineId> {
    lines.due(now)
}

fn first_at(lines: &Lines, terminal: u16) -> Option<LineId> {
    lines.front(terminal)
}

fn first_of(lines: &Lines, seat: u16) -> Option<LineId> {
    lines.first_of(seat)
}

fn find(lines: &Lines, key: &Key) -> Option<LineId> {
    lines.find(key)
}

/// The key and the deadline of the first request that is due.
fn seen_due(lines: &Lines, now: i64) -> Option<(Key, i64)> {
    let item = lines.get(lines.due(now)?);
    Some((item.key, item.deadline))
}

/// The key of the first request at a terminal.
fn seen_first(lines: &Lines, terminal: u16) -> Option<Key> {
    Some(lines.get(lines.front(terminal)?).key)
}

/// Takes out the first request that is due: its key and its deadline.
fn take_due(lines: &mut Lines, now: i64) -> Option<(Key, i64)> {
    let id = lines.due(now)?;
    let taken = lines.take(id);
    Some((taken.key, taken.deadline))
}

/// Whether a request has this ServiceID.
fn is_service(key: &Key, service: &[u8]) -> bool {
    key.service.as_bytes() == service
}

/// Whether a request with this key and deadline is the only one: that of terminal 2, and of seat 3.
fn is_alone(lines: &Lines, key: &Key, deadline: i64) -> bool {
    let id = due(lines, deadline);
    id.is_some()
        && first_at(lines, 2) == id
        && first_of(lines, 3) == id
        && find(lines, key) == id
        && seen_due(lines, deadline) == Some((*key, deadline))
}

#[test]
fn one_request(rt: HostRuntime) -> Result<(), Fail> {
    let mut lines = Lines::new(rt.alloc());
    let waiting = item(b"1", 3, 2, 60).expect(&rt, "a request");
    let key = waiting.key;
    assert!(rt; add(&mut lines, waiting).is_ok());
    assert_eq!(rt; count(&lines, 2), 1);
    assert_eq!(rt; count(&lines, 0), 0);
    assert_eq!(rt; due(&lines, 59), None);
    assert!(rt; is_alone(&lines, &key, 60));
    assert!(rt; take_due(&mut lines, 60) == Some((key, 60)));
    assert_eq!(rt; first_at(&lines, 2), None);
    Ok(())
}

/// Adds four requests of a terminal.
fn add_four(lines: &mut Lines) -> Option<bool> {
    for (service, deadline) in [(b"1", 70), (b"2", 60), (b"3", 70), (b"4", 60)] {
        if add(lines, item(service, 0, 0, deadline)?).is_err() {
            return Some(false);
        }
    }
    Some(true)
}

#[test]
fn by_deadline_and_acceptance(rt: HostRuntime) -> Result<(), Fail> {
    let mut lines = Lines::new(rt.alloc());
    assert!(rt; add_four(&mut lines) == Some(true));
    for service in [b"2", b"4", b"1", b"3"] {
        let (key, _) = take_due(&mut lines, 70).expect(&rt, "a request is due");
        assert!(rt; is_service(&key, service));
    }
    assert_eq!(rt; count(&lines, 0), 0);
    Ok(())
}

/// So many steps are at most seven: a call of it is proved only where they are.
fn at_most_seven<L: Ledger>(_steps: &Steps<L>)
    requires { _steps.now ≤ 7 }
{}

/// Takes a request out, and counts its steps.
fn take_counting<L: Ledger>(lines: &mut Lines, id: LineId, blank: Blank) -> Item
    requires live { IsSome (item_of lines.old id) }
    requires name { blank.name ≡ L.name }
    requires parts { blank.parts ≡ L.parts }
    requires some { 0 < blank.parts }
    ensures { lines.new ≡ without_request id lines.old }
{
    let mut steps = Steps::<L>::none(blank);
    let taken = lines.take_counted(id, &mut steps);
    at_most_seven(&steps);
    taken
}

/// Takes a request out in at most seven steps.
fn take_in_seven(lines: &mut Lines, id: LineId) -> Item
    requires { IsSome (item_of lines.old id) }
    ensures { lines.new ≡ without_request id lines.old }
{
    take_counting::<Brand>(lines, id, Blank::new(1))
}

/// Takes out the request with this key: its own key.
fn take_found(lines: &mut Lines, key: &Key) -> Option<Key> {
    let id = lines.find(key)?;
    Some(take_in_seven(lines, id).key)
}

/// Adds three requests of a till at a terminal.
fn add_three(lines: &mut Lines) -> Option<bool> {
    for (service, deadline) in [(b"1", 70), (b"2", 80), (b"3", 60)] {
        if add(lines, item(service, 63, 31, deadline)?).is_err() {
            return Some(false);
        }
    }
    Some(true)
}

/// Which one of three is taken, and then the first of the terminal and of the till, and the first by deadline.
fn check_taken(rt: &impl Abort, lines: &mut Lines, row: (&[u8], &[u8], &[u8])) {
    let (service, first, soonest) = row;
    let key = item(service, 63, 31, 0).expect(rt, "a request").key;
    assert!(rt; take_found(lines, &key) == Some(key));
    assert!(rt; find(lines, &key).is_none());
    assert_eq!(rt; count(lines, 31), 2);
    let oldest = seen_first(lines, 31).expect(rt, "two wait");
    assert!(rt; is_service(&oldest, first));
    assert!(rt; first_of(lines, 63).is_some() && first_of(lines, 63) == first_at(lines, 31));
    let (sooner, _) = seen_due(lines, 80).expect(rt, "two are due");
    assert!(rt; is_service(&sooner, soonest));
}

#[test]
fn one_of_three_is_taken(rt: HostRuntime) -> Result<(), Fail> {
    // It is the first of the two lists by acceptance, in their middle and last by deadline, or last and first by deadline.
    let rows = [(b"1", b"2", b"3"), (b"2", b"1", b"3"), (b"3", b"1", b"1")];
    for (service, first, soonest) in rows {
        let mut lines = Lines::new(rt.alloc());
        assert!(rt; add_three(&mut lines) == Some(true));
        check_taken(&rt, &mut lines, (service, first, soonest));
    }
    Ok(())
}

/// Adds a request. With ample memory it is accepted; where an allocation fails, the others stay and the request comes back.
fn check_added(rt: &impl Abort, lines: &mut Lines, waiting: Item) {
    let (key, before) = (waiting.key, count(lines, 0));
    match add(lines, waiting) {
        Ok(id) => {
            assert!(rt; count(lines, 0) > before);
            assert_eq!(rt; find(lines, &key), Some(id));
        }
        Err(refused) => {
            assert!(rt; refused.key == key);
            assert_eq!(rt; count(lines, 0), before);
            assert!(rt; find(lines, &key).is_none());
        }
    }
}

#[test]
fn a_refused_request_comes_back(rt: HostRuntime) -> Result<(), Fail> {
    let mut lines = Lines::new(rt.alloc());
    for service in [b"1", b"2", b"3", b"4", b"5"] {
        let waiting = item(service, 0, 0, 60).expect(&rt, "a request");
        assert!(rt; waiting.seat < 64 && waiting.terminal < 32);
        check_added(&rt, &mut lines, waiting);
    }
    Ok(())
}
