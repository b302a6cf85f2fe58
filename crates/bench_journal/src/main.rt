//! Opens a journal on a real file, and appends to it.
//!
//! Without arguments it makes a journal of three bodies, opens it, appends one and opens it again, and prints what it
//! counted. With the arguments RECORDS and ROUNDS it does so with a journal of that many bodies, and prints the
//! microseconds of an opening beside those of a plain read of the same file in the same chunks, and of an append beside
//! those of two bare writes with two syncs, each the mean of so many rounds.
#![tactic(auto)]

mod file_site;

use anyhow::{Context, anyhow, ensure};
use file_site::FileSite;
use gw_bytes::MOST_SLOTS;
use gw_site::{Failed, Site};
use jrn_log::{Journal, OpenFault};
use std::alloc::Global;
use std::fs::{self, File, OpenOptions};
use std::io::{self, Read, Write};
use std::rt::{Clock, Files};
use std::time::Instant;
use std::{env, process};

/// The body that is appended.
const BODY: [u8; 255] = [0x2B; 255];

/// A journal's file of so many bodies.
fn write_journal(file: &mut File, records: u64) -> io::Result<()> {
    let mut slot = [0x2A; 256];
    slot[0] = 0xA5;
    for _ in 0..records {
        file.write_all(&slot)?;
    }
    file.write_all(&[0x00])
}

/// Reads a file to its end in chunks of 4,096 bytes, and counts them.
fn read_plain(file: &mut File) -> io::Result<u64> {
    let mut chunk = [0; 4096];
    let mut bytes: u64 = 0;
    for _ in 0..u64::MAX {
        let count = file.read(&mut chunk)?;
        if count == 0 {
            break;
        }
        bytes = bytes.wrapping_add(count as u64);
    }
    Ok(bytes)
}

/// Opens the journal, and counts its bodies.
fn count_bodies(alloc: Global, site: &mut FileSite) -> Result<usize, OpenFault> {
    let (_, bodies) = Journal::open(alloc, site, MOST_SLOTS)?;
    Ok(bodies.as_slice().len())
}

/// Opens the journal, and appends so many bodies. Returns the nanoseconds of the appends.
fn append(
    rt: &(impl AllocGlobal + Clock),
    site: &mut FileSite,
    rounds: u64,
) -> anyhow::Result<u128> {
    let (mut journal, _) = Journal::open(rt.alloc(), site, MOST_SLOTS)?;
    let start = Instant::now(rt)?;
    for _ in 0..rounds {
        ensure!(journal.room() > 0, "no slot is free");
        journal.append(site, &BODY)?;
    }
    Ok(start.elapsed(rt)?.as_nanos())
}

/// Makes the same writes and syncs after the file's end. Returns their nanoseconds.
fn write_bare(rt: &impl Clock, site: &mut FileSite, rounds: u64) -> anyhow::Result<u128> {
    let end = bare(site.length())?;
    let start = Instant::now(rt)?;
    for round in 0..rounds {
        let offset = end.wrapping_add(round.wrapping_mul(256));
        bare(site.write_at(offset, &[0x2B; 256]))?;
        bare(site.sync())?;
        bare(site.write_at(offset, &[0xA5]))?;
        bare(site.sync())?;
    }
    Ok(start.elapsed(rt)?.as_nanos())
}

/// What a call on the site has returned.
fn bare<T>(returned: Result<T, Failed>) -> anyhow::Result<T> {
    match returned {
        Ok(value) => Ok(value),
        Err(Failed) => Err(anyhow!("a call on the file has failed")),
    }
}

/// Microseconds of each of so many rounds.
fn microseconds_each(nanoseconds: u128, rounds: u64) -> u64 {
    u64::try_from(nanoseconds).unwrap_or(u64::MAX) / 1000 / rounds.max(1)
}

/// The peak of the process's memory, as Linux reports it.
fn print_peak<R: Files + AllocGlobal + Print>(rt: &R) -> anyhow::Result<()> {
    let status = fs::read_to_string(rt, "/proc/self/status")?;
    for line in status.as_str().lines() {
        if let Some(peak) = line.strip_prefix("VmHWM:") {
            println!(rt; "peak of memory: {}", peak.trim())?;
        }
    }
    Ok(())
}

/// Prints what plain reads, openings, appends and bare writes take.
fn report<R: Files<File = File> + AllocGlobal + Print + Clock>(
    rt: &R,
    name: &str,
    site: &mut FileSite,
    rounds: u64,
) -> anyhow::Result<()> {
    let start = Instant::now(rt)?;
    for _ in 0..rounds {
        read_plain(&mut fs::open(rt, name)?)?;
    }
    let plain = microseconds_each(start.elapsed(rt)?.as_nanos(), rounds);
    let start = Instant::now(rt)?;
    for _ in 0..rounds {
        count_bodies(rt.alloc(), site)?;
    }
    let opening = microseconds_each(start.elapsed(rt)?.as_nanos(), rounds);
    let appending = microseconds_each(append(rt, site, rounds)?, rounds);
    let writing = microseconds_each(write_bare(rt, site, rounds)?, rounds);
    println!(rt; "an opening: {opening} us; a plain read: {plain} us")?;
    println!(rt; "an append: {appending} us; two bare writes with two syncs: {writing} us")?;
    print_peak(rt)
}

/// Makes the file, counts its bodies, and measures where there are rounds.
fn run<R: Files<File = File> + AllocGlobal + Print + Clock>(
    rt: &R,
    name: &str,
    records: u64,
    rounds: u64,
) -> anyhow::Result<()> {
    let mut options = OpenOptions::new();
    options.read(true).write(true).create(true).truncate(true);
    let mut file = options.open(rt, name)?;
    write_journal(&mut file, records)?;
    let bytes = read_plain(&mut fs::open(rt, name)?)?;
    let mut site = FileSite::new(file);
    let opened = count_bodies(rt.alloc(), &mut site)?;
    println!(rt; "{bytes} bytes: {opened} bodies")?;
    append(rt, &mut site, 1)?;
    let again = count_bodies(rt.alloc(), &mut site)?;
    println!(rt; "one appended: {again} bodies")?;
    if rounds == 0 {
        return Ok(());
    }
    report(rt, name, &mut site, rounds)
}

fn main(rt: HostRuntime) -> anyhow::Result<()> {
    let mut words = env::args(&rt)?;
    let _program = words.next();
    let records = match words.next() {
        Some(word) => word.as_str().parse::<u64>().context("RECORDS")?,
        None => 3,
    };
    let rounds = match words.next() {
        Some(word) => word.as_str().parse::<u64>().context("ROUNDS")?,
        None => 0,
    };
    let name = format!(in rt.alloc(); "/tmp/bench_journal.{}", process::id(rt.process()))?;
    let done = run(&rt, name.as_str(), records, rounds);
    fs::remove_file(&rt, name.as_str())?;
    done
}
