//! How late a byte is seen that another process sends while a poll waits.
use crate::Run;
use crate::calls::{brought, next};
use crate::connected::connect;
use anyhow::{bail, ensure};
use gw_bytes::LONGEST_CHUNK;
use gw_site::What;
use net_site::NetSite;
use std::io::{self, Write};
use std::net::{SocketAddr, TcpStream};
use std::process::{Child, Command};
use std::thread;
use std::time::{Clock, Duration};

/// The bytes of a stamp: nanoseconds of the system's monotonic clock, which all processes share.
const STAMP: usize = 8;

/// The most stamps that are sent: each takes 21 milliseconds.
const MOST_STAMPS: u64 = 500;

/// How many stamps came, and how late they were, in nanoseconds.
#[derive(Clone, Copy)]
struct Stamps {
    count: u64,
    sum: u64,
    most: u64,
}

fn nanoseconds(rt: &HostRuntime) -> io::Result<u64> {
    Ok(u64::try_from(rt.monotonic()?.as_nanos()).unwrap_or(u64::MAX))
}

/// Sends a stamp after a pause of 13 to 29 milliseconds.
fn send_stamp(rt: &HostRuntime, stream: &mut TcpStream, number: u64) -> io::Result<()> {
    let pause = 13_000 + number % 17 * 1_000;
    thread::sleep(rt, Duration::from_micros(pause));
    let stamp = nanoseconds(rt)?.to_le_bytes();
    stream.write_all(&stamp)
}

/// The peer: sends so many stamps.
pub(crate) fn send_stamps(rt: &HostRuntime, address: SocketAddr, count: u64) -> io::Result<()> {
    let mut stream = connect(rt, address)?;
    for number in 0..count {
        send_stamp(rt, &mut stream, number)?;
    }
    Ok(())
}

/// The first stamp of a chunk.
fn first_stamp(chunk: &[u8]) -> Option<u64> {
    let first = chunk.get(..STAMP)?;
    let mut stamp = [0; STAMP];
    stamp.copy_from_slice(first);
    Some(u64::from_le_bytes(stamp))
}

/// Counts so many stamps, and how late the first of them is.
fn add_late(stamps: &mut Stamps, count: usize, late: u64) {
    stamps.count = stamps.count.saturating_add(count as u64);
    stamps.sum = stamps.sum.saturating_add(late);
    stamps.most = stamps.most.max(late);
}

/// Counts the stamps of a chunk, and how late the first is.
fn add_stamps(rt: &HostRuntime, chunk: &[u8], stamps: &mut Stamps) -> anyhow::Result<()> {
    let Some(stamp) = first_stamp(chunk) else {
        bail!("a stamp came in parts");
    };
    let late = nanoseconds(rt)?.saturating_sub(stamp);
    add_late(stamps, chunk.len() / STAMP, late);
    Ok(())
}

/// Hears what the peer sends next. Whether it has not closed its connection.
fn hear_next(
    rt: &HostRuntime,
    site: &mut NetSite<&HostRuntime>,
    peer: u64,
    stamps: &mut Stamps,
) -> anyhow::Result<bool> {
    let mut buf = [0; LONGEST_CHUNK];
    match next(site, &mut buf) {
        What::TillBytes(till, count) if till == peer => {
            add_stamps(rt, brought(&buf, count), stamps)?;
            Ok(true)
        }
        What::TillClosed(till) if till == peer => Ok(false),
        _ => bail!("the peer is silent"),
    }
}

/// The number of the peer, once it has connected.
fn hear_peer(site: &mut NetSite<&HostRuntime>) -> anyhow::Result<u64> {
    let mut buf = [0; LONGEST_CHUNK];
    match next(site, &mut buf) {
        What::TillOpened(peer) => Ok(peer),
        _ => bail!("the peer doesn't connect"),
    }
}

/// Hears the peer until it closes its connection.
fn hear_stamps(rt: &HostRuntime, site: &mut NetSite<&HostRuntime>) -> anyhow::Result<Stamps> {
    let mut stamps = Stamps {
        count: 0,
        sum: 0,
        most: 0,
    };
    let peer = hear_peer(site)?;
    for _ in 0..u64::MAX {
        if !hear_next(rt, site, peer, &mut stamps)? {
            break;
        }
    }
    Ok(stamps)
}

/// Starts this program as the peer.
fn start_peer(
    rt: &HostRuntime,
    program: &str,
    address: &str,
    number: &str,
) -> anyhow::Result<Child> {
    let child = Command::new(rt.alloc(), program)?
        .arg("peer")?
        .arg(address)?
        .arg(number)?
        .spawn(rt)?;
    Ok(child)
}

/// Starts a peer that sends so many stamps.
fn start(rt: &HostRuntime, run: &Run<'_>, count: u64) -> anyhow::Result<Child> {
    let address = format!(in rt.alloc(); "{}", run.addresses.near)?;
    let number = format!(in rt.alloc(); "{count}")?;
    start_peer(rt, run.program, address.as_str(), number.as_str())
}

fn wait_for(child: &mut Child) -> anyhow::Result<()> {
    ensure!(child.wait()?.success(), "the peer has failed");
    Ok(())
}

fn print_count(rt: &HostRuntime, count: u64) -> io::Result<()> {
    println!(rt; "stamps of another process: {count}")
}

fn print_times(rt: &HostRuntime, stamps: &Stamps) -> io::Result<()> {
    let mean = stamps.sum / stamps.count.max(1);
    println!(rt;
        "  seen after {mean} ns on the mean, {} ns at most",
        stamps.most
    )
}

/// Prints how late the stamps of a peer in another process are heard.
pub(crate) fn report(
    rt: &HostRuntime,
    run: &Run<'_>,
    site: &mut NetSite<&HostRuntime>,
) -> anyhow::Result<()> {
    let mut child = start(rt, run, run.rounds.min(MOST_STAMPS))?;
    let stamps = hear_stamps(rt, site);
    wait_for(&mut child)?;
    let stamps = stamps?;
    print_count(rt, stamps.count)?;
    if run.is_timed {
        print_times(rt, &stamps)?;
    }
    Ok(())
}
