//! Each stop of the power in an opening of the journal over the site in memory.
use gateway_play::{check_runs, run_once, site_of};
use row_texts::{halves, push_form};
use sim_script::ImageKind;
use sim_site::SimSite;
use std::alloc::{AllocError, Global};
use std::process::Abort;
use std::test::Fail;

/// How a run begins and ends once the power is there again, by whether it finds a first gate to write.
const BEGINS: &str = "start\nsynced\nwrote 0 00\nsynced\nat 0\nstop\n";

/// The same of a file with records.
const READS: &str = "start\nsynced\nat 0\nstop\n";

/// What a row of [`STOPS`] says, and its text.
#[derive(Clone, Copy)]
struct Row<'a> {
    text: &'a str,
    file: &'a str,
    calls: u64,
    status: &'a str,
    lines: &'a str,
    lengths: &'a str,
}

/// The row of this text.
fn row_of(text: &str) -> Result<Row<'_>, Fail> {
    let (file, rest) = text.split_once(" | ").ok_or("no file")?;
    let (calls, rest) = rest.split_once(" | ").ok_or("no calls")?;
    let (status, rest) = rest.split_once(" | ").ok_or("no status")?;
    let (lines, lengths) = rest.split_once("| ").ok_or("no lengths")?;
    Ok(Row {
        text,
        file: if file == "-" { "" } else { file },
        calls: calls.parse::<u64>()?,
        status,
        lines,
        lengths,
    })
}

/// Appends these lines, which commas divide.
fn push_lines(log: &mut String, lines: &str) -> Result<(), AllocError> {
    for line in lines.split(',') {
        if !line.trim().is_empty() {
            push_form(log, "%\n", &[line.trim()])?;
        }
    }
    Ok(())
}

/// The log of a run in which the power fails after these lines, and of the next run, over a file of this length.
fn log_of(alloc: Global, lines: &str, length: &str) -> Result<String, AllocError> {
    let mut log = String::new(alloc);
    push_lines(&mut log, lines)?;
    let begins = if length == "257" { READS } else { BEGINS };
    push_form(&mut log, "power %\n%", &[length, begins])?;
    Ok(log)
}

/// The runs over a site leave this log, and end with the status of the row and then with 0.
fn check_ends(alloc: Global, site: &mut SimSite, row: &Row<'_>, log: &str) -> Result<(), Fail> {
    let statuses = format!(in alloc; " {} 0", row.status)?;
    check_runs(alloc, site, row.text, log, &statuses)
}

/// The runs over a site go as the row says, where the power leaves a file of this length.
fn check_stopped(
    alloc: Global,
    site: &mut SimSite,
    row: &Row<'_>,
    length: &str,
) -> Result<(), Fail> {
    let log = log_of(alloc, row.lines, length)?;
    check_ends(alloc, site, row, &log)
}

/// The power fails after the calls of a row and leaves a file of this length; then all goes well.
fn check_stop(alloc: Global, row: &Row<'_>, image: ImageKind, length: &str) -> Result<(), Fail> {
    let mut site = site_of(alloc, "", row.file)?;
    site.stop_after(row.calls, image);
    check_stopped(alloc, &mut site, row, length)
}

/// The file, after how many calls the power fails, the status of the run in which it does, the log up to there, and how long the
/// file is that a power failure leaves: that of the last sync, that with all writes, and that with junk.
const STOPS: &str = "\
- | 0 | 69 | | 0 0 0
- | 1 | 74 | start | 0 0 0
- | 2 | 74 | start,synced | 0 0 0
- | 3 | 74 | start,synced,wrote 0 00 | 0 1 1
- | 4 | 0 | start,synced,wrote 0 00,synced | 1 1 1
41 | 0 | 69 | power 1 | 1 1 1
41 | 1 | 74 | power 1,start | 1 1 1
41 | 2 | 74 | power 1,start,synced | 1 1 1
41 | 3 | 74 | power 1,start,synced,wrote 0 00 | 1 1 1
41 | 4 | 0 | power 1,start,synced,wrote 0 00,synced | 1 1 1
T1 00 | 0 | 69 | power 257 | 257 257 257
T1 00 | 1 | 74 | power 257,start | 257 257 257
T1 00 | 2 | 74 | power 257,start,synced | 257 257 257";

/// The power fails after the calls of a row, in each way.
fn check_stops(alloc: Global, text: &str) -> Result<(), Fail> {
    let row = row_of(text)?;
    let (old, rest) = halves(row.lengths);
    let (new, junk) = halves(rest);
    check_stop(alloc, &row, ImageKind::Old, old)?;
    check_stop(alloc, &row, ImageKind::New, new)?;
    check_stop(alloc, &row, ImageKind::Junk(0xA5), junk)
}

/// Files, and after how many calls the power doesn't fail any more before the script's end.
const WHOLE: [(&str, u64); 3] = [("", 5), ("41", 5), ("T1 00", 3)];

/// A run over a site comes to the script's end, and the power doesn't fail.
fn check_end(rt: &impl Abort, alloc: Global, site: &mut SimSite, words: &str) -> Result<(), Fail> {
    let status = run_once(alloc, site)?;
    assert_eq!(rt; status, 0, "of {words}");
    assert!(rt; !site.crashed(), "of {words}");
    Ok(())
}

/// An opening makes fewer calls than that: the run comes to the script's end.
fn check_whole(rt: &impl Abort, alloc: Global, words: &str, calls: u64) -> Result<(), Fail> {
    let mut site = site_of(alloc, "", words)?;
    site.stop_after(calls, ImageKind::Old);
    check_end(rt, alloc, &mut site, words)
}

#[test]
fn every_stop_of_an_opening(rt: HostRuntime) -> Result<(), Fail> {
    for row in STOPS.split('\n') {
        check_stops(rt.alloc(), row)?;
    }
    for (words, calls) in WHOLE {
        check_whole(&rt, rt.alloc(), words, calls)?;
    }
    Ok(())
}
