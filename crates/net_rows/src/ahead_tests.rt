//! Tests of the connections to terminals that are begun before the links are asked for.
use crate::peer::{accepted, sends};
use gw_site::What;
use net_play::{Rig, Steps, address, check, got_nothing};
use std::net::{TcpListener, TcpStream};
use std::test::Fail;

/// A listener whose accepting doesn't wait.
fn listener_at(rt: &HostRuntime, port: u16) -> Result<TcpListener, Fail> {
    let listener = TcpListener::bind(rt, address(rt, port))?;
    listener.set_nonblocking(true)?;
    Ok(listener)
}

/// The next connection that a listener has, while the site only polls.
fn accepted_in_polls(rig: &mut Rig<'_>, listener: &TcpListener) -> Result<TcpStream, &'static str> {
    let mut buf = [0; 4096];
    for _ in 0..200 {
        let _ = rig.poll(&mut buf);
        if let Ok(terminal) = accepted(listener) {
            return Ok(terminal);
        }
    }
    Err("a connection is begun")
}

/// A connection that is made though no link was asked for. Nothing was sent on it.
fn begun_ahead(rig: &mut Rig<'_>, listener: &TcpListener) -> Result<TcpStream, &'static str> {
    let mut terminal = accepted_in_polls(rig, listener)?;
    check!(got_nothing(&mut terminal), "nothing is sent on it");
    check!(accepted(listener).is_err(), "there is one alone");
    Ok(terminal)
}

/// A link is that of this connection. What was sent on it before isn't heard.
fn is_taken_up(rig: &mut Rig<'_>, pt: u16, terminal: &mut TcpStream) -> Steps {
    let mut buf = [0; 4096];
    check!(sends(terminal, b"xyz"), "bytes are sent");
    check!(rig.poll(&mut buf) == What::Nothing, "nothing is heard");
    check!(rig.links(pt), "it is linked");
    check!(sends(terminal, b"x"), "a byte is sent");
    check(rig.brings(What::PtBytes(pt, 1)), "it is heard alone")
}

/// The first poll begins the connections to both terminals.
fn both_are_begun(rig: &mut Rig<'_>, first: &TcpListener, second: &TcpListener) -> Steps {
    check!(accepted(first).is_err(), "an opening connects to none");
    let mut one = begun_ahead(rig, first)?;
    let mut other = begun_ahead(rig, second)?;
    is_taken_up(rig, 1, &mut other)?;
    is_taken_up(rig, 0, &mut one)
}

fn begun_together(
    rig: &mut Rig<'_>,
    first: &TcpListener,
    second: &TcpListener,
) -> Result<(), Fail> {
    both_are_begun(rig, first, second)?;
    rig.remove_file()
}

/// The first poll begins the connections to all terminals. Nothing is sent on one until the link is asked for, and what came before isn't heard.
#[test]
fn connections_are_begun_together(rt: HostRuntime) -> Result<(), Fail> {
    let far = [address(&rt, 47026), address(&rt, 47027)];
    let first = listener_at(&rt, 47026)?;
    let second = listener_at(&rt, 47027)?;
    let mut rig = Rig::opened(&rt, "together", 47025, &far)?;
    begun_together(&mut rig, &first, &second)
}

/// The peer sends bytes and closes before the link is asked for. Then another connection is made at once, and those bytes aren't heard.
fn closed_by_the_peer(rig: &mut Rig<'_>, listener: &TcpListener) -> Steps {
    let mut buf = [0; 4096];
    let mut early = begun_ahead(rig, listener)?;
    check!(sends(&mut early, b"xyz"), "bytes are sent");
    drop(early);
    check!(rig.poll(&mut buf) == What::Nothing, "nothing is heard");
    check!(rig.links(0), "it is linked");
    let mut terminal = accepted_in_polls(rig, listener)?;
    check!(sends(&mut terminal, b"x"), "a byte is sent");
    check!(rig.brings(What::PtBytes(0, 1)), "by the new one");
    drop(terminal);
    check(rig.brings(What::PtClosed(0)), "the link is lost")
}

fn closed_and_lost(rig: &mut Rig<'_>, listener: &TcpListener) -> Result<(), Fail> {
    closed_by_the_peer(rig, listener)?;
    check!(accepted(listener).is_err(), "none is begun at once");
    let mut terminal = begun_ahead(rig, listener)?;
    is_taken_up(rig, 0, &mut terminal)?;
    rig.remove_file()
}

/// A connection that its peer has closed isn't taken up, and after a link is lost one is begun before the next is asked for.
#[test]
fn connections_that_are_closed_and_lost(rt: HostRuntime) -> Result<(), Fail> {
    let listener = listener_at(&rt, 47029)?;
    let mut rig = Rig::opened(&rt, "lost", 47028, &[address(&rt, 47029)])?;
    closed_and_lost(&mut rig, &listener)
}
