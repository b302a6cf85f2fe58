//! Measures a site over sockets and a file beside the system's own calls.
//!
//! Without arguments it does each kind of work two or three times, and prints what it counted. With the arguments ROUNDS
//! and SECONDS it works so many rounds, is idle for so many seconds, and prints the times too. It has both ends of all
//! connections, but for one peer: that is this program again, with the arguments `peer`, an address and a count.
#![tactic(auto)]

mod calls;
mod connected;
mod disk;
mod echo;
mod idle;
mod off;
mod peer;
mod setup;
mod times;

use anyhow::{Context, bail};
use connected::{Addresses, Peers, open_connected};
use gw_bytes::MOST_TERMINALS;
use net_site::NetSite;
use std::env::Args;
use std::net::{Ipv4Addr, SocketAddr};
use std::{env, fs, process};

/// What a run works with, and how much it does.
#[derive(Clone, Copy)]
pub(crate) struct Run<'a> {
    /// The path of this program.
    pub(crate) program: &'a str,
    /// The path of the sites' file.
    pub(crate) journal: &'a str,
    pub(crate) addresses: Addresses,
    /// Rounds of work that takes milliseconds.
    pub(crate) rounds: u64,
    /// Rounds of work that takes microseconds.
    pub(crate) short_rounds: u64,
    /// Seconds in which nothing comes; two polls at least.
    pub(crate) seconds: u64,
    /// Whether times are printed.
    pub(crate) is_timed: bool,
}

/// How much a run does.
#[derive(Clone, Copy)]
struct Amount {
    rounds: u64,
    seconds: u64,
    is_timed: bool,
}

/// A run that isn't timed.
const FEW: Amount = Amount {
    rounds: 3,
    seconds: 0,
    is_timed: false,
};

/// The rounds of work that takes microseconds, for one of work that takes milliseconds.
const SHORT: u64 = 100;

/// The tills that the gateway serves at most, and the terminals.
const TILLS: usize = 64;

const TERMINALS: usize = MOST_TERMINALS;

/// All of the work on one site: the disk, polls, idling and echoes, with all connections.
fn measure_many(
    rt: &HostRuntime,
    run: &Run<'_>,
    site: &mut NetSite<&HostRuntime>,
    peers: &mut Peers,
) -> anyhow::Result<()> {
    open_connected(rt, run, site, peers, TILLS, TERMINALS)?;
    disk::report(rt, run, site)?;
    idle::report_polls(rt, run, site, peers)?;
    idle::report_idle(rt, run, site)?;
    peer::report(rt, run, site)?;
    echo::report(rt, run, site, peers)
}

fn work_with_many(rt: &HostRuntime, run: &Run<'_>) -> anyhow::Result<()> {
    let mut peers = Peers::new(rt.alloc());
    let mut site = NetSite::new(rt, rt.alloc())?;
    measure_many(rt, run, &mut site, &mut peers)
}

/// Echoes with one till alone.
fn measure_one(
    rt: &HostRuntime,
    run: &Run<'_>,
    site: &mut NetSite<&HostRuntime>,
    peers: &mut Peers,
) -> anyhow::Result<()> {
    open_connected(rt, run, site, peers, 1, 0)?;
    echo::report(rt, run, site, peers)
}

fn work_with_one(rt: &HostRuntime, run: &Run<'_>) -> anyhow::Result<()> {
    let mut peers = Peers::new(rt.alloc());
    let mut site = NetSite::new(rt, rt.alloc())?;
    measure_one(rt, run, &mut site, &mut peers)
}

fn work_with_none(rt: &HostRuntime, run: &Run<'_>) -> anyhow::Result<()> {
    let mut site = NetSite::new(rt, rt.alloc())?;
    off::report(rt, run, &mut site)
}

fn remove_journal(rt: &HostRuntime, run: &Run<'_>) -> anyhow::Result<()> {
    fs::remove_file(rt, run.journal)?;
    Ok(())
}

/// All of the work. Each site has a new file.
fn work(rt: &HostRuntime, run: &Run<'_>) -> anyhow::Result<()> {
    work_with_many(rt, run)?;
    remove_journal(rt, run)?;
    work_with_one(rt, run)?;
    remove_journal(rt, run)?;
    work_with_none(rt, run)?;
    remove_journal(rt, run)
}

/// Loopback addresses of this process's own, so that runs side by side don't meet.
fn own_addresses(process: u32) -> Addresses {
    let [_, a, b, c] = process.to_be_bytes();
    let own = Ipv4Addr::new(127, a, b, c);
    Addresses {
        near: SocketAddr::from((own, 47021)),
        far: SocketAddr::from((own, 47100)),
        plain: SocketAddr::from((own, 47023)),
    }
}

/// A run of this process that does so much.
fn run_of<'a>(program: &'a str, journal: &'a str, process: u32, amount: Amount) -> Run<'a> {
    Run {
        program,
        journal,
        addresses: own_addresses(process),
        rounds: amount.rounds,
        short_rounds: amount.rounds.saturating_mul(SHORT),
        seconds: amount.seconds,
        is_timed: amount.is_timed,
    }
}

fn begin(rt: &HostRuntime, program: &str, amount: Amount) -> anyhow::Result<()> {
    let process = process::id(rt.process());
    let journal = format!(in rt.alloc(); "/tmp/bench_net.{process}")?;
    work(rt, &run_of(program, journal.as_str(), process, amount))
}

/// The number that a word is.
fn number(word: &str, name: &'static str) -> anyhow::Result<u64> {
    word.parse::<u64>().context(name)
}

/// The number that the next word is.
fn next_number(words: &mut Args, name: &'static str) -> anyhow::Result<u64> {
    match words.next() {
        Some(word) => number(word.as_str(), name),
        None => bail!("{name} is missing"),
    }
}

/// The address that the next word is.
fn next_address(words: &mut Args) -> anyhow::Result<SocketAddr> {
    match words.next() {
        Some(word) => word.as_str().parse::<SocketAddr>().context("ADDRESS"),
        None => bail!("an address is missing"),
    }
}

fn be_peer(rt: &HostRuntime, words: &mut Args) -> anyhow::Result<()> {
    let address = next_address(words)?;
    let count = next_number(words, "COUNT")?;
    peer::send_stamps(rt, address, count)?;
    Ok(())
}

fn run_timed(
    rt: &HostRuntime,
    program: &str,
    rounds: &str,
    words: &mut Args,
) -> anyhow::Result<()> {
    let rounds = number(rounds, "ROUNDS")?;
    let seconds = next_number(words, "SECONDS")?;
    begin(
        rt,
        program,
        Amount {
            rounds,
            seconds,
            is_timed: true,
        },
    )
}

fn run_with(rt: &HostRuntime, program: &str, words: &mut Args) -> anyhow::Result<()> {
    match words.next() {
        Some(word) if word.as_str() == "peer" => be_peer(rt, words),
        Some(word) => run_timed(rt, program, word.as_str(), words),
        None => begin(rt, program, FEW),
    }
}

fn main(rt: HostRuntime) -> anyhow::Result<()> {
    let mut words = env::args(&rt)?;
    match words.next() {
        Some(program) => run_with(&rt, program.as_str(), &mut words),
        None => bail!("the program has no name"),
    }
}
