//! How long terminals that are switched off hold the loop up.
use crate::calls::{link_pt, poll};
use crate::{Run, setup};
use anyhow::ensure;
use gw_bytes::{LONGEST_CHUNK, MOST_TERMINALS};
use libc::net::listen;
use net_site::NetSite;
use std::alloc::AllocError;
use std::io;
use std::net::{SocketAddr, TcpListener, TcpStream};
use std::os::fd::AsRawFd;
use std::time::{Duration, Instant};

/// The gateway tries a terminal again after 5 seconds: so many rounds are a minute of that.
const ROUNDS: u64 = 12;

/// Connects until it takes too long, at most eight times.
fn connect_many(rt: &HostRuntime, far: SocketAddr) -> Result<Vec<TcpStream>, AllocError> {
    let mut held = Vec::new(rt.alloc());
    for _ in 0..8 {
        match TcpStream::connect_timeout(rt, &far, Duration::from_millis(50)) {
            Ok(stream) => held.push(stream)?,
            Err(_) => break,
        }
    }
    Ok(held)
}

/// A listener whose queue is full, so that it accepts no connection and refuses none, as a host that is switched off.
#[derive(Drop)]
struct Full {
    listener: TcpListener,
    held: Vec<TcpStream>,
}

fn full_listener(rt: &HostRuntime, far: SocketAddr) -> anyhow::Result<Full> {
    let listener = TcpListener::bind(rt, far)?;
    let queue = listen(listener.as_raw_fd(), 0);
    let held = connect_many(rt, far)?;
    ensure!(queue == 0 && held.len() < 8, "the queue isn't full");
    Ok(Full { listener, held })
}

/// Such a listener at the address of each terminal.
fn full_listeners(rt: &HostRuntime, run: &Run<'_>) -> anyhow::Result<Vec<Full>> {
    let mut listeners = Vec::new(rt.alloc());
    for pt in 0..MOST_TERMINALS {
        listeners.push(full_listener(rt, run.addresses.terminal(pt))?)?;
    }
    Ok(listeners)
}

/// Tries each terminal once, and counts the tries that failed.
fn try_all(site: &mut NetSite<&HostRuntime>) -> u64 {
    let mut failed: u64 = 0;
    for pt in 0..MOST_TERMINALS {
        if link_pt(site, pt as u16).is_err() {
            failed = failed.saturating_add(1);
        }
    }
    failed
}

/// What rounds of tries took, and how many tries failed.
#[derive(Clone, Copy)]
struct Tried {
    sum: Duration,
    most: Duration,
    failed: u64,
}

/// Polls, and then tries each terminal once.
fn try_in_round(
    rt: &HostRuntime,
    site: &mut NetSite<&HostRuntime>,
    buf: &mut [u8; LONGEST_CHUNK],
    tried: &mut Tried,
) -> io::Result<()> {
    let _ = poll(site, buf);
    let start = Instant::now(rt)?;
    tried.failed = tried.failed.saturating_add(try_all(site));
    let passed = start.elapsed(rt)?;
    tried.sum = tried.sum.saturating_add(passed);
    tried.most = tried.most.max(passed);
    Ok(())
}

fn try_in_rounds(
    rt: &HostRuntime,
    site: &mut NetSite<&HostRuntime>,
    rounds: u64,
) -> io::Result<Tried> {
    let mut buf = [0; LONGEST_CHUNK];
    let mut tried = Tried {
        sum: Duration::ZERO,
        most: Duration::ZERO,
        failed: 0,
    };
    for _ in 0..rounds {
        try_in_round(rt, site, &mut buf, &mut tried)?;
    }
    Ok(tried)
}

/// Tries the terminals of a site, at addresses where queues are full.
fn try_switched_off(
    rt: &HostRuntime,
    run: &Run<'_>,
    site: &mut NetSite<&HostRuntime>,
    rounds: u64,
) -> anyhow::Result<Tried> {
    let _listeners = full_listeners(rt, run)?;
    setup::open(rt, run, site, MOST_TERMINALS)?;
    Ok(try_in_rounds(rt, site, rounds)?)
}

fn print_failed(rt: &HostRuntime, failed: u64, rounds: u64) -> io::Result<()> {
    println!(rt;
        "links to {MOST_TERMINALS} terminals that are switched off: {failed} failed in {rounds} rounds"
    )
}

fn print_times(rt: &HostRuntime, tried: &Tried, rounds: u64) -> io::Result<()> {
    let mean = u64::try_from(tried.sum.as_micros()).unwrap_or(u64::MAX) / rounds.max(1);
    println!(rt;
        "  a round: {mean} us on the mean, {} us at most",
        tried.most.as_micros()
    )
}

/// Prints how long the tries of one round take.
pub(crate) fn report(
    rt: &HostRuntime,
    run: &Run<'_>,
    site: &mut NetSite<&HostRuntime>,
) -> anyhow::Result<()> {
    let rounds = run.rounds.min(ROUNDS);
    let tried = try_switched_off(rt, run, site, rounds)?;
    print_failed(rt, tried.failed, rounds)?;
    if run.is_timed {
        print_times(rt, &tried, rounds)?;
    }
    Ok(())
}
