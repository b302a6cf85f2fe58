//! A till's message and its reply of 500 bytes, through the site and by a plain echo.
use crate::Run;
use crate::calls::{brought, called, poll, send_till};
use crate::connected::{Peers, accept, connect};
use crate::times::{self, NONE, Times};
use anyhow::{Context, bail};
use gw_bytes::LONGEST_CHUNK;
use gw_site::What;
use net_site::NetSite;
use std::io::{self, Read, Write};
use std::net::{SocketAddr, TcpListener, TcpStream};
use std::time::{Duration, Instant};

/// The length of a usual request.
const LENGTH: usize = 500;

const MESSAGE: [u8; LENGTH] = [0x20; LENGTH];

/// The two ends of a connection whose bytes are sent back by plain reads and writes.
#[derive(Drop)]
struct Plain {
    near: TcpStream,
    far: TcpStream,
}

fn connect_plain(rt: &HostRuntime, address: SocketAddr) -> io::Result<Plain> {
    let listener = TcpListener::bind(rt, address)?;
    let far = connect(rt, address)?;
    let near = accept(&listener)?;
    Ok(Plain { near, far })
}

fn read_reply(stream: &mut TcpStream) -> io::Result<()> {
    let mut reply = [0; LENGTH];
    stream.read_exact(&mut reply)
}

/// Has the site send back what a till has sent. All bytes that are sent at once over loopback come at once.
fn send_back(site: &mut NetSite<&HostRuntime>) -> anyhow::Result<()> {
    let mut buf = [0; LONGEST_CHUNK];
    let What::TillBytes(till, count) = poll(site, &mut buf) else {
        bail!("the message didn't come");
    };
    called(send_till(site, till, brought(&buf, count)))
}

fn echo_by_site(site: &mut NetSite<&HostRuntime>, till: &mut TcpStream) -> anyhow::Result<()> {
    till.write_all(&MESSAGE)?;
    send_back(site)?;
    read_reply(till)?;
    Ok(())
}

fn send_back_plain(near: &mut TcpStream) -> io::Result<()> {
    let mut buf = [0; LONGEST_CHUNK];
    let count = near.read(&mut buf)?;
    near.write_all(brought(&buf, count))
}

fn echo_plain(plain: &mut Plain) -> io::Result<()> {
    plain.far.write_all(&MESSAGE)?;
    send_back_plain(&mut plain.near)?;
    read_reply(&mut plain.far)
}

/// Adds what an echo takes by the site.
fn time_by_site(
    rt: &HostRuntime,
    site: &mut NetSite<&HostRuntime>,
    till: &mut TcpStream,
    sum: &mut Duration,
) -> anyhow::Result<()> {
    let start = Instant::now(rt)?;
    echo_by_site(site, till)?;
    times::add(rt, sum, start)?;
    Ok(())
}

/// Adds what a plain echo takes.
fn time_plain(rt: &HostRuntime, plain: &mut Plain, sum: &mut Duration) -> io::Result<()> {
    let start = Instant::now(rt)?;
    echo_plain(plain)?;
    times::add(rt, sum, start)
}

/// Echoes by both, in turn.
fn echo_both(
    rt: &HostRuntime,
    site: &mut NetSite<&HostRuntime>,
    till: &mut TcpStream,
    plain: &mut Plain,
    rounds: u64,
) -> anyhow::Result<Times> {
    let mut sums = NONE;
    for _ in 0..rounds {
        time_by_site(rt, site, till, &mut sums.site)?;
        time_plain(rt, plain, &mut sums.plain)?;
    }
    Ok(sums)
}

/// Echoes by both, with the site's first till.
fn echo_first(
    rt: &HostRuntime,
    run: &Run<'_>,
    site: &mut NetSite<&HostRuntime>,
    tills: &mut Vec<TcpStream>,
) -> anyhow::Result<Times> {
    let mut plain = connect_plain(rt, run.addresses.plain)?;
    let till = tills.first_mut().context("there is no till")?;
    echo_both(rt, site, till, &mut plain, run.short_rounds)
}

fn print_round_trips(rt: &HostRuntime, idle: usize, rounds: u64) -> io::Result<()> {
    println!(rt; "round trips of {LENGTH} bytes beside {idle} idle connections: {rounds} of each")
}

/// Prints what a round trip takes.
pub(crate) fn report(
    rt: &HostRuntime,
    run: &Run<'_>,
    site: &mut NetSite<&HostRuntime>,
    peers: &mut Peers,
) -> anyhow::Result<()> {
    let sums = echo_first(rt, run, site, &mut peers.tills)?;
    print_round_trips(rt, peers.count().saturating_sub(1), run.short_rounds)?;
    if run.is_timed {
        times::print(rt, sums, run.short_rounds)?;
    }
    Ok(())
}
