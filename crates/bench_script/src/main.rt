//! Reads a script, plays it over the site in memory by calls made by hand, and goes through its log.
//!
//! Without arguments it does so with a script of three messages, one of three failing sends and one of four tills that are open
//! at once, and prints what it counted. With the arguments KIND (`messages`, `failing` or `open`) and LINES it does so with a
//! script of about so many lines, and prints the nanoseconds that each line takes to be read, to be played and to be gone through
//! in the log, and the peak of memory.
#![tactic(auto)]

use anyhow::{Context, anyhow, bail};
use gw_base::Bytes;
use gw_site::{Failed, SharedBytes, Site, Turn, What};
use sim_script::ScriptFault;
use sim_site::SimSite;
use std::alloc::{AllocError, Global};
use std::rt::{Clock, Files};
use std::time::Instant;
use std::{env, fs};

/// What was counted of a script that was played.
#[derive(Drop)]
struct Counted {
    polls: u64,
    turns: u64,
    bytes: u64,
}

/// A till that opens, and says so many messages.
fn messages(alloc: Global, lines: u64) -> Result<String, AllocError> {
    let mut script = String::from_str(alloc, "open 1\n")?;
    for line in 0..lines {
        write!(script, "say 1 {{\"message\":{line}}}\n")?;
    }
    Ok(script)
}

/// Tills that open and close, and for each a failing send that is never made: these lines stay armed.
fn failing(alloc: Global, lines: u64) -> Result<String, AllocError> {
    let mut script = String::new(alloc);
    for till in 1..=lines / 4 {
        write!(
            script,
            "open {till}\nfail send-till {till} 3\ntick\nclose {till}\n"
        )?;
    }
    Ok(script)
}

/// Tills that are all open at once: each says a message, and then they close in the order in which they opened.
fn open_at_once(alloc: Global, lines: u64) -> Result<String, AllocError> {
    let tills = lines / 3;
    let mut script = String::new(alloc);
    for till in 1..=tills {
        write!(script, "open {till}\n")?;
    }
    for till in 1..=tills {
        write!(script, "say {till} {{\"message\":{till}}}\n")?;
    }
    for till in 1..=tills {
        write!(script, "close {till}\n")?;
    }
    Ok(script)
}

/// A site that plays the script.
fn site_of(alloc: Global, script: &str) -> anyhow::Result<SimSite> {
    match SimSite::from_script(alloc, &Bytes::copied(alloc, script.as_bytes())?) {
        Ok(site) => Ok(site),
        Err(ScriptFault::Long) => Err(anyhow!("a script too long")),
        Err(ScriptFault::Line { line }) => Err(anyhow!("line {line} of the script")),
        Err(ScriptFault::Memory) => Err(anyhow!("no memory")),
    }
}

/// What a call on the site has returned.
fn made(returned: Result<(), Failed>) -> anyhow::Result<()> {
    match returned {
        Ok(()) => Ok(()),
        Err(Failed) => Err(anyhow!("a call on the site has failed")),
    }
}

/// Polls until the stop. Each message is sent back to its till, and each poll that brings nothing has a send to a till that
/// isn't there. How many polls were made.
fn play(alloc: Global, site: &mut SimSite) -> anyhow::Result<u64> {
    let setup = site.setup(alloc)?;
    made(site.open(&setup))?;
    let mut buf = [0; 4096];
    for polls in 1..u64::MAX {
        match site.poll(&mut buf).what {
            // So it ends without memory too.
            What::Stopped if site.short() => bail!("no memory"),
            What::Stopped => return Ok(polls),
            What::TillBytes(till, count) => made(site.send_till(till, &buf[..count]))?,
            What::Nothing => made(site.send_till(0, b"nobody"))?,
            _ => {}
        }
    }
    bail!("no stop")
}

/// How many bytes a turn has.
fn bytes_of(turn: &Turn) -> u64 {
    let bytes: &SharedBytes = match turn {
        Turn::HeardTill { bytes, .. } => bytes,
        Turn::SentTill { bytes, .. } => bytes,
        _ => return 0,
    };
    bytes.as_slice().len() as u64
}

/// Goes through the log.
fn count(site: &SimSite, polls: u64) -> Counted {
    let mut counted = Counted {
        polls,
        turns: 0,
        bytes: 0,
    };
    for turn in site.log().as_slice() {
        counted.turns = counted.turns.wrapping_add(1);
        counted.bytes = counted.bytes.wrapping_add(bytes_of(turn));
    }
    counted
}

/// Nanoseconds for each of so many.
fn each(nanoseconds: u128, count: u64) -> u64 {
    u64::try_from(nanoseconds).unwrap_or(u64::MAX) / count.max(1)
}

/// The peak of the process's memory, as Linux reports it.
fn print_peak<R: Files + AllocGlobal + Print>(rt: &R) -> anyhow::Result<()> {
    let status = fs::read_to_string(rt, "/proc/self/status")?;
    for line in status.as_str().lines() {
        if let Some(peak) = line.strip_prefix("VmHWM:") {
            println!(rt; "peak of memory: {}", peak.trim())?;
        }
    }
    Ok(())
}

/// Prints what is counted of a script.
fn print_counted(rt: &impl Print, script: &str, counted: &Counted) -> anyhow::Result<()> {
    println!(rt;
        "a script of {} bytes: {} polls, {} turns, {} bytes in them",
        script.len(),
        counted.polls,
        counted.turns,
        counted.bytes
    )?;
    Ok(())
}

/// Plays the script, and prints what is counted.
fn run<R: AllocGlobal + Print>(rt: &R, script: &str) -> anyhow::Result<()> {
    let mut site = site_of(rt.alloc(), script)?;
    let polls = play(rt.alloc(), &mut site)?;
    print_counted(rt, script, &count(&site, polls))
}

/// What each of so many lines has taken since then, in nanoseconds.
fn each_since<R: Clock>(rt: &R, start: &Instant, lines: u64) -> anyhow::Result<u64> {
    Ok(each(start.elapsed(rt)?.as_nanos(), lines))
}

/// Plays the script that a site has read: how many polls were made, and the nanoseconds of a line.
fn play_timed<R: AllocGlobal + Clock>(
    rt: &R,
    site: &mut SimSite,
    lines: u64,
) -> anyhow::Result<(u64, u64)> {
    let start = Instant::now(rt)?;
    let polls = play(rt.alloc(), site)?;
    Ok((polls, each_since(rt, &start, lines)?))
}

/// Prints what each line takes to be read, to be played and to be gone through in the log.
fn print_times(rt: &impl Print, reading: u64, playing: u64, counting: u64) -> anyhow::Result<()> {
    println!(rt;
        "from_script: {reading} ns a line; playing: {playing} ns; the log: {counting} ns"
    )?;
    Ok(())
}

/// Plays the script that a site has read, and prints what each of its lines takes.
fn measure_site<R: Files + AllocGlobal + Print + Clock>(
    rt: &R,
    site: &mut SimSite,
    script: &str,
    lines: u64,
    reading: u64,
) -> anyhow::Result<()> {
    let (polls, playing) = play_timed(rt, site, lines)?;
    let start = Instant::now(rt)?;
    let counted = count(site, polls);
    let counting = each_since(rt, &start, lines)?;
    print_counted(rt, script, &counted)?;
    print_times(rt, reading, playing, counting)?;
    print_peak(rt)
}

/// Plays the script, and prints what each of its lines takes.
fn measure<R: Files + AllocGlobal + Print + Clock>(
    rt: &R,
    script: &str,
    lines: u64,
) -> anyhow::Result<()> {
    let start = Instant::now(rt)?;
    let mut site = site_of(rt.alloc(), script)?;
    let reading = each_since(rt, &start, lines)?;
    measure_site(rt, &mut site, script, lines, reading)
}

/// The script of a kind, of about so many lines.
fn script_of(alloc: Global, kind: &str, lines: u64) -> anyhow::Result<String> {
    match kind {
        "messages" => Ok(messages(alloc, lines)?),
        "failing" => Ok(failing(alloc, lines)?),
        "open" => Ok(open_at_once(alloc, lines)?),
        _ => Err(anyhow!("a kind is messages, failing or open")),
    }
}

/// Plays the script of a kind, of about so many lines, and prints what is counted.
fn run_kind<R: AllocGlobal + Print>(rt: &R, kind: &str, lines: u64) -> anyhow::Result<()> {
    let script = script_of(rt.alloc(), kind, lines)?;
    run(rt, script.as_str())
}

/// The same, with what each of its lines takes.
fn measure_kind<R: Files + AllocGlobal + Print + Clock>(
    rt: &R,
    kind: &str,
    lines: u64,
) -> anyhow::Result<()> {
    let script = script_of(rt.alloc(), kind, lines)?;
    measure(rt, script.as_str(), lines)
}

/// A short script of each kind.
fn run_short<R: AllocGlobal + Print>(rt: &R) -> anyhow::Result<()> {
    run_kind(rt, "messages", 3)?;
    run_kind(rt, "failing", 12)?;
    run_kind(rt, "open", 12)
}

fn main(rt: HostRuntime) -> anyhow::Result<()> {
    let mut words = env::args(&rt)?;
    let _program = words.next();
    let Some(kind) = words.next() else {
        return run_short(&rt);
    };
    let lines = match words.next() {
        Some(word) => word.as_str().parse::<u64>().context("LINES")?,
        None => 1000,
    };
    measure_kind(&rt, kind.as_str(), lines)
}
