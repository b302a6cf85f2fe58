//! Streams that fail, bytes that are no text, and a site that isn't there.
use gateway_play::{check_log, compare, ended, ended_over, site_of};
use gw_base::Bytes;
use gw_site::{MemSink, MemSource, NoSite, Site};
use row_texts::push_row;
use sim_site::SimSite;
use std::alloc::{AllocError, Global};
use std::process::Abort;
use std::str;
use std::test::Fail;

/// A till asks what became of a payment that nobody knows.
const ASKED: &str = "\
> start
open 1
status 1 1 9
> fails TransactionStatus 1 1 NotFound
> at 0
> stop
> status 0";

/// A usual configuration.
const USUAL: &str =
    "listen = \"127.0.0.1:7000\"\njournal = \"gateway.jrn\"\nline = 2\n[[terminal]]\npoi = \"T1\"\naddress = \"127.0.0.1:20007\"\n\
    currency = \"EUR\"\npassword = \"123456\"\nconfig = 186\n";

/// An input of these bytes, of which this read fails.
fn input_of(alloc: Global, bytes: &[u8], read: Option<u64>) -> Result<MemSource, AllocError> {
    Ok(MemSource::new(Bytes::copied(alloc, bytes)?, read))
}

/// The status of a replay of these bytes, of which this read fails.
fn replayed(
    alloc: Global,
    script: &[u8],
    read: Option<u64>,
    out: &mut MemSink,
) -> Result<u8, AllocError> {
    let mut input = input_of(alloc, script, read)?;
    ended(alloc, "replay", &mut input, out)
}

/// A replay of these bytes, of which this read fails, ends with this status and writes this.
fn check_replay(
    alloc: Global,
    script: &[u8],
    read: Option<u64>,
    wanted: (u8, &str),
) -> Result<(), Fail> {
    let mut out = MemSink::new(alloc, None, 0);
    let status = replayed(alloc, script, read, &mut out)?;
    compare("a replay", (status, &out), wanted)
}

#[test]
fn a_comment_that_is_no_text(rt: HostRuntime) -> Result<(), Fail> {
    check_replay(
        rt.alloc(),
        b"tick\n# \xff\n",
        None,
        (65, "script 2\nstatus 65\n"),
    )
}

#[test]
fn a_read_fails(rt: HostRuntime) -> Result<(), Fail> {
    for read in 0..2 {
        check_replay(
            rt.alloc(),
            b"open 1\n",
            Some(read),
            (66, "input\nstatus 66\n"),
        )?;
    }
    Ok(())
}

/// So many bytes of this output are written by the write that fails.
fn check_written(
    rt: &impl Abort,
    out: &MemSink,
    output: &str,
    write: u64,
    taken: usize,
) -> Result<(), Fail> {
    let written = str::from_utf8(out.bytes().as_slice())?;
    assert!(rt; output.starts_with(written), "{written}");
    assert!(rt; write > 0 || written.len() == taken, "{written}");
    Ok(())
}

/// A replay of this script, of which this write takes so many bytes and fails, writes a prefix of this.
fn check_write(
    rt: &impl Abort,
    alloc: Global,
    texts: (&str, &str),
    write: u64,
    taken: usize,
) -> Result<(), Fail> {
    let (script, output) = texts;
    let mut out = MemSink::new(alloc, Some(write), taken);
    let status = replayed(alloc, script.as_bytes(), None, &mut out)?;
    assert_eq!(rt; status, 73, "write {write}");
    check_written(rt, &out, output, write, taken)
}

/// The writes of a replay of this script fail, one after the other, before they take anything and after some bytes.
fn check_writes(rt: &impl Abort, alloc: Global, script: &str, output: &str) -> Result<(), Fail> {
    for (write, taken) in [(0, 0), (0, 9), (1, 0), (1, 9)] {
        check_write(rt, alloc, (script, output), write, taken)?;
    }
    Ok(())
}

/// Appends the script in which the till asks, and what a replay of it writes.
fn push_asked(alloc: Global, script: &mut String, output: &mut String) -> Result<(), Fail> {
    let mut now = String::from_str(alloc, "0")?;
    push_row(alloc, script, output, &mut now, ASKED)
}

#[test]
fn a_write_fails(rt: HostRuntime) -> Result<(), Fail> {
    let mut script = String::new(rt.alloc());
    let mut output = String::new(rt.alloc());
    push_asked(rt.alloc(), &mut script, &mut output)?;
    check_writes(&rt, rt.alloc(), &script, &output)
}

/// The status of serving no rounds over a site with the usual configuration, of which this read fails.
fn served<S: Site>(
    alloc: Global,
    site: &mut S,
    read: Option<u64>,
    out: &mut MemSink,
) -> Result<u8, AllocError> {
    let mut input = input_of(alloc, USUAL.as_bytes(), read)?;
    ended_over(alloc, "serve --turns 0", site, &mut input, out)
}

/// To serve no rounds over a site with the usual configuration, of which this read fails, ends with this status and writes this.
fn check_serve<S: Site>(
    alloc: Global,
    site: &mut S,
    read: Option<u64>,
    out: &mut MemSink,
    wanted: (u8, &str),
) -> Result<(), Fail> {
    let status = served(alloc, site, read, out)?;
    compare("a configuration", (status, out), wanted)
}

/// A read fails, and the site gets no call.
fn a_failed_read(alloc: Global, site: &mut SimSite) -> Result<(), Fail> {
    let mut out = MemSink::new(alloc, None, 0);
    check_serve(alloc, site, Some(1), &mut out, (66, "input\nstatus 66\n"))?;
    check_log(alloc, site, "a read", "")
}

/// A write fails once the journal is opened.
fn a_failed_write(alloc: Global, site: &mut SimSite) -> Result<(), Fail> {
    let mut out = MemSink::new(alloc, Some(0), 3);
    check_serve(alloc, site, None, &mut out, (73, "sta"))?;
    check_log(
        alloc,
        site,
        "a write",
        "start\nsynced\nwrote 0 00\nsynced\n",
    )
}

#[test]
fn a_read_or_a_write_fails_in_serve(rt: HostRuntime) -> Result<(), Fail> {
    let mut site = site_of(rt.alloc(), "", "")?;
    a_failed_read(rt.alloc(), &mut site)?;
    a_failed_write(rt.alloc(), &mut site)
}

#[test]
fn a_site_that_is_not_there(rt: HostRuntime) -> Result<(), Fail> {
    let alloc = rt.alloc();
    let mut out = MemSink::new(alloc, None, 0);
    check_serve(
        alloc,
        &mut NoSite::new(),
        None,
        &mut out,
        (69, "open\nstatus 69\n"),
    )
}
