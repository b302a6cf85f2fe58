//! Polls over many connections, of which one or none has something.
use crate::calls::poll;
use crate::connected::Peers;
use crate::{Run, times};
use anyhow::{Context, bail, ensure};
use gw_bytes::LONGEST_CHUNK;
use gw_site::What;
use net_site::NetSite;
use std::io::{self, Write};
use std::net::TcpStream;
use std::time::{CpuClock, Duration, Instant};

/// Adds what a poll takes, and says whether it brings one byte of a terminal.
fn time_poll(
    rt: &HostRuntime,
    site: &mut NetSite<&HostRuntime>,
    buf: &mut [u8; LONGEST_CHUNK],
    sum: &mut Duration,
) -> io::Result<bool> {
    let start = Instant::now(rt)?;
    let what = poll(site, buf);
    times::add(rt, sum, start)?;
    Ok(matches!(what, What::PtBytes(_, 1)))
}

/// A poll that brings one byte of this terminal.
fn poll_for_byte(
    rt: &HostRuntime,
    site: &mut NetSite<&HostRuntime>,
    terminal: &mut TcpStream,
    buf: &mut [u8; LONGEST_CHUNK],
    sum: &mut Duration,
) -> anyhow::Result<()> {
    terminal.write_all(&[0x80])?;
    ensure!(time_poll(rt, site, buf, sum)?, "the byte didn't come");
    Ok(())
}

/// Polls that bring one byte of the last terminal, while all other connections are idle.
fn poll_for_bytes(
    rt: &HostRuntime,
    site: &mut NetSite<&HostRuntime>,
    terminals: &mut Vec<TcpStream>,
    rounds: u64,
) -> anyhow::Result<Duration> {
    let mut buf = [0; LONGEST_CHUNK];
    let mut sum = Duration::ZERO;
    let terminal = terminals.last_mut().context("there is no terminal")?;
    for _ in 0..rounds {
        poll_for_byte(rt, site, terminal, &mut buf, &mut sum)?;
    }
    Ok(sum)
}

fn print_polls(rt: &HostRuntime, connections: usize, polls: u64) -> io::Result<()> {
    println!(rt; "polls over {connections} connections, one of which has a byte: {polls}")
}

fn print_each(rt: &HostRuntime, each: u64) -> io::Result<()> {
    println!(rt; "  each: {each} ns")
}

/// Prints what a poll over all connections takes that brings one byte.
pub(crate) fn report_polls(
    rt: &HostRuntime,
    run: &Run<'_>,
    site: &mut NetSite<&HostRuntime>,
    peers: &mut Peers,
) -> anyhow::Result<()> {
    let sum = poll_for_bytes(rt, site, &mut peers.terminals, run.short_rounds)?;
    print_polls(rt, peers.count(), run.short_rounds)?;
    if run.is_timed {
        print_each(rt, times::nanoseconds_each(sum, run.short_rounds))?;
    }
    Ok(())
}

/// Whether idling ends after so many polls: it takes two of them, and so many seconds.
fn is_over(rt: &HostRuntime, start: Instant, seconds: u64, polls: u64) -> io::Result<bool> {
    if polls < 2 {
        return Ok(false);
    }
    Ok(start.elapsed(rt)?.as_secs() >= seconds)
}

/// Polls while nothing comes, twice and for so many seconds, and counts the polls.
fn idle(
    rt: &HostRuntime,
    site: &mut NetSite<&HostRuntime>,
    start: Instant,
    seconds: u64,
) -> anyhow::Result<u64> {
    let mut buf = [0; LONGEST_CHUNK];
    for polls in 0..u64::MAX {
        if is_over(rt, start, seconds, polls)? {
            return Ok(polls);
        }
        ensure!(poll(site, &mut buf) == What::Nothing, "something came");
    }
    bail!("the polls have no end")
}

/// How many polls were made while nothing came, and what they took.
#[derive(Clone, Copy)]
struct Idled {
    polls: u64,
    used: Duration,
    passed: Duration,
}

fn time_idling(
    rt: &HostRuntime,
    site: &mut NetSite<&HostRuntime>,
    seconds: u64,
) -> anyhow::Result<Idled> {
    let start = Instant::now(rt)?;
    let before = rt.process_cpu_time()?;
    let polls = idle(rt, site, start, seconds)?;
    let used = rt.process_cpu_time()?.saturating_sub(before);
    let passed = start.elapsed(rt)?;
    Ok(Idled {
        polls,
        used,
        passed,
    })
}

/// The hundredths of a percent of a processor.
fn share(idled: &Idled) -> u128 {
    let used = idled.used.as_nanos().saturating_mul(10_000);
    used / idled.passed.as_nanos().max(1)
}

fn print_idled(rt: &HostRuntime, idled: &Idled, share: u128) -> io::Result<()> {
    println!(rt;
        "idle polls: {} in {} s, {}.{:02} % of a processor, {} ns of it each",
        idled.polls,
        idled.passed.as_secs(),
        share / 100,
        share % 100,
        times::nanoseconds_each(idled.used, idled.polls)
    )
}

fn print_count(rt: &HostRuntime, polls: u64) -> io::Result<()> {
    println!(rt; "idle polls: {polls}")
}

/// Prints what idling takes of a processor.
pub(crate) fn report_idle(
    rt: &HostRuntime,
    run: &Run<'_>,
    site: &mut NetSite<&HostRuntime>,
) -> anyhow::Result<()> {
    let idled = time_idling(rt, site, run.seconds)?;
    if run.is_timed {
        print_idled(rt, &idled, share(&idled))?;
    } else {
        print_count(rt, idled.polls)?;
    }
    Ok(())
}
