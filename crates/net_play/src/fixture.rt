//! Addresses and paths of a process's own, setups, what a peer has got, and steps that go wrong in words.
use gw_base::{Currency, Ident, Pt, Pts, Setup, Text};
use std::io::Read;
use std::net::{Ipv4Addr, SocketAddr, TcpStream};
use std::process;
use std::test::Fail;

/// What came of some steps: the words of the first that went wrong.
pub type Steps = Result<(), &'static str>;

/// Goes wrong with these words unless it holds.
pub fn check(holds: bool, words: &'static str) -> Steps {
    if holds {
        return Ok(());
    }
    Err(words)
}

/// A loopback address of this process's own, so that runs side by side don't meet.
pub fn address(rt: &HostRuntime, port: u16) -> SocketAddr {
    let [_, a, b, c] = process::id(rt.process()).to_be_bytes();
    SocketAddr::from((Ipv4Addr::new(127, a, b, c), port))
}

/// A path of this process's own.
pub fn path(rt: &HostRuntime, name: &str) -> Result<String, Fail> {
    Ok(format!(in rt.alloc(); "/tmp/net_play-{}-{name}", process::id(rt.process()))?)
}

fn text(rt: &HostRuntime, text: &str) -> Result<Text, Fail> {
    Ok(Text::new(format!(in rt.alloc(); "{text}")?))
}

fn poi(rt: &HostRuntime, number: usize) -> Result<Ident<40>, Fail> {
    let poi = format!(in rt.alloc(); "T{number}")?;
    Ok(Ident::of(poi.as_str().as_bytes()).ok_or("an identifier")?)
}

/// A terminal at this address, which may be no address.
pub fn terminal_at(rt: &HostRuntime, number: usize, address: &str) -> Result<Pt, Fail> {
    let poi = poi(rt, number)?;
    Ok(Pt {
        poi,
        address: text(rt, address)?,
        password: [0; 3],
        currency: Currency::Eur,
        config: 0,
        none: 0,
        answer: 5,
        command: 60,
    })
}

fn terminals_at(rt: &HostRuntime, far: &[SocketAddr]) -> Result<Vec<Pt>, Fail> {
    let mut terminals = Vec::new(rt.alloc());
    for (number, address) in far.iter().enumerate() {
        let address = format!(in rt.alloc(); "{address}")?;
        terminals.push(terminal_at(rt, number, address.as_str())?)?;
    }
    Ok(terminals)
}

/// A setup without a terminal.
fn bare_setup(rt: &HostRuntime, listen: &str, journal: &str) -> Result<Setup, Fail> {
    let name = Ident::of(b"GATEWAY").ok_or("an identifier")?;
    let listen = text(rt, listen)?;
    let journal = text(rt, journal)?;
    Ok(Setup {
        name,
        listen,
        journal,
        line: 0,
        wait: 60,
        slots: 1000,
        terminals: Pts::new(Vec::new(rt.alloc())),
    })
}

/// A setup with a terminal at each of these addresses.
pub fn setup(
    rt: &HostRuntime,
    listen: &str,
    journal: &str,
    far: &[SocketAddr],
) -> Result<Setup, Fail> {
    let mut setup = bare_setup(rt, listen, journal)?;
    setup.terminals = Pts::new(terminals_at(rt, far)?);
    Ok(setup)
}

/// Whether a peer has got nothing, and its connection hasn't ended.
pub fn got_nothing(peer: &mut TcpStream) -> bool {
    let mut buf = [0; 16];
    peer.set_nonblocking(true).is_ok() && peer.read(&mut buf).is_err()
}
