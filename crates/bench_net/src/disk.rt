//! A record's two writes with their syncs, by the site and bare.
use crate::Run;
use crate::calls::{called, length, sync, write_at};
use crate::times::{self, NONE, Times};
use gw_site::Failed;
use net_site::NetSite;
use std::fs::{self, File, OpenOptions};
use std::io;
use std::os::unix::fs::FileExt;
use std::time::{Duration, Instant};

/// A slot of the journal, and its gate.
const SLOT: [u8; 256] = [0x2B; 256];

const GATE: [u8; 1] = [0xA5];

fn write_and_sync(
    site: &mut NetSite<&HostRuntime>,
    offset: u64,
    bytes: &[u8],
) -> Result<(), Failed> {
    write_at(site, offset, bytes)?;
    sync(site)
}

fn write_by_site(site: &mut NetSite<&HostRuntime>, offset: u64) -> Result<(), Failed> {
    write_and_sync(site, offset, &SLOT)?;
    write_and_sync(site, offset, &GATE)
}

fn write_and_sync_bare(file: &File, offset: u64, bytes: &[u8]) -> io::Result<()> {
    file.write_all_at(bytes, offset)?;
    file.sync_data()
}

fn write_bare(file: &File, offset: u64) -> io::Result<()> {
    write_and_sync_bare(file, offset, &SLOT)?;
    write_and_sync_bare(file, offset, &GATE)
}

/// Adds what a record takes by the site.
fn time_by_site(
    rt: &HostRuntime,
    site: &mut NetSite<&HostRuntime>,
    offset: u64,
    sum: &mut Duration,
) -> anyhow::Result<()> {
    let start = Instant::now(rt)?;
    called(write_by_site(site, offset))?;
    times::add(rt, sum, start)?;
    Ok(())
}

/// Adds what a record takes without it.
fn time_bare(rt: &HostRuntime, bare: &File, offset: u64, sum: &mut Duration) -> io::Result<()> {
    let start = Instant::now(rt)?;
    write_bare(bare, offset)?;
    times::add(rt, sum, start)
}

/// Writes records to the site's file and to one beside it, in turn.
fn write_both(
    rt: &HostRuntime,
    site: &mut NetSite<&HostRuntime>,
    bare: &File,
    rounds: u64,
) -> anyhow::Result<Times> {
    let mut sums = NONE;
    for round in 0..rounds {
        let offset = round.wrapping_mul(256);
        time_by_site(rt, site, offset, &mut sums.site)?;
        time_bare(rt, bare, offset, &mut sums.plain)?;
    }
    Ok(sums)
}

/// A new file.
fn create(rt: &HostRuntime, name: &str) -> io::Result<File> {
    let mut options = OpenOptions::new();
    options.read(true).write(true).create(true).truncate(true);
    options.open(rt, name)
}

fn length_of(file: &File) -> io::Result<u64> {
    Ok(file.metadata()?.len())
}

fn print_lengths(rt: &HostRuntime, rounds: u64, length: u64, bare: u64) -> io::Result<()> {
    println!(rt;
        "a record's two writes and two syncs: {rounds} of each, {length} bytes and {bare} bytes"
    )
}

/// Writes to both files, and prints their lengths. What the records took.
fn write_and_print(
    rt: &HostRuntime,
    run: &Run<'_>,
    site: &mut NetSite<&HostRuntime>,
    bare: &File,
) -> anyhow::Result<Times> {
    let sums = write_both(rt, site, bare, run.rounds)?;
    print_lengths(rt, run.rounds, length(site)?, length_of(bare)?)?;
    Ok(sums)
}

/// Works with a file of this name beside the site's, which is then removed.
fn work_beside(
    rt: &HostRuntime,
    run: &Run<'_>,
    site: &mut NetSite<&HostRuntime>,
    name: &str,
) -> anyhow::Result<Times> {
    let bare = create(rt, name)?;
    let sums = write_and_print(rt, run, site, &bare)?;
    fs::remove_file(rt, name)?;
    Ok(sums)
}

/// Prints what a record's four calls take.
pub(crate) fn report(
    rt: &HostRuntime,
    run: &Run<'_>,
    site: &mut NetSite<&HostRuntime>,
) -> anyhow::Result<()> {
    let name = format!(in rt.alloc(); "{}.bare", run.journal)?;
    let sums = work_beside(rt, run, site, name.as_str())?;
    if run.is_timed {
        times::print(rt, sums, run.rounds)?;
    }
    Ok(())
}
