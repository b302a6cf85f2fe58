//! Sites in memory that hold files, and runs over them.
ghost use Rattle.std.specs.Prelude.{◌≡◌, [], IfOk};
ghost use Rattle.sim_site.specs.Sites.{log_of};

use crate::replay::check_text;
use gw_base::Bytes;
use gw_run::{run, write_log};
use gw_site::MemSink;
use row_texts::file_of;
use sim_site::SimSite;
use std::alloc::{AllocError, Global};
use std::str;
use std::test::Fail;

/// A site that plays this script, with an empty log.
fn new_site(alloc: Global, script: &str) -> Result<SimSite, Fail>
    ensures { IfOk result (λ site. log_of site ≡ []) }
{
    match SimSite::from_script(alloc, &Bytes::copied(alloc, script.as_bytes())?) {
        Ok(site) => Ok(site),
        Err(_) => Err(Fail::from("no script")),
    }
}

/// A site that plays this script, and holds the file of these words where there are any.
pub fn site_of(alloc: Global, script: &str, words: &str) -> Result<SimSite, Fail> {
    let mut site = new_site(alloc, script)?;
    if !words.is_empty() {
        site.holding(alloc, &file_of(alloc, words)?)?;
    }
    Ok(site)
}

/// The status of a run over the site.
pub fn run_once(alloc: Global, site: &mut SimSite) -> Result<u8, AllocError> {
    let setup = site.setup(alloc)?;
    Ok(run(alloc, &setup, site, u64::MAX))
}

/// Appends the status of a run over the site.
fn push_run(alloc: Global, site: &mut SimSite, statuses: &mut String) -> Result<(), AllocError> {
    let status = run_once(alloc, site)?;
    write!(statuses, " {status}")
}

/// Appends the status of another run over the site, if the power has failed.
pub fn push_next_run(
    alloc: Global,
    site: &mut SimSite,
    statuses: &mut String,
) -> Result<(), AllocError> {
    if site.crashed() {
        site.restart(alloc)?;
        push_run(alloc, site, statuses)?;
    }
    Ok(())
}

/// Runs until the power no longer fails. The statuses of the runs; no case has more than three.
pub fn run_all(alloc: Global, site: &mut SimSite) -> Result<String, AllocError> {
    let mut statuses = String::new(alloc);
    push_run(alloc, site, &mut statuses)?;
    for _ in 0..2 {
        push_next_run(alloc, site, &mut statuses)?;
    }
    Ok(statuses)
}

/// What is written of a site's log.
fn written_log(alloc: Global, site: &SimSite) -> Result<MemSink, Fail> {
    let mut out = MemSink::new(alloc, None, 0);
    match write_log(alloc, site.log().as_slice(), &mut out) {
        Ok(()) => Ok(out),
        Err(_) => Err(Fail::from("the log isn't written")),
    }
}

/// The text that a sink has.
fn text_of(alloc: Global, out: &MemSink) -> Result<String, Fail> {
    Ok(String::from_str(alloc, str::from_utf8(out.bytes().as_slice())?)?)
}

/// The text of a site's log.
pub fn log_text(alloc: Global, site: &SimSite) -> Result<String, Fail> {
    let out = written_log(alloc, site)?;
    text_of(alloc, &out)
}

/// A site has this log.
pub fn check_log(alloc: Global, site: &SimSite, row: &str, log: &str) -> Result<(), Fail> {
    let text = log_text(alloc, site)?;
    check_text(row, text.as_str(), log)
}

/// The runs over a site end with these statuses.
fn check_statuses(
    alloc: Global,
    site: &mut SimSite,
    row: &str,
    statuses: &str,
) -> Result<(), Fail> {
    let ended = run_all(alloc, site)?;
    check_text(row, ended.as_str(), statuses)
}

/// The runs over a site leave this log, and end with these statuses.
pub fn check_runs(
    alloc: Global,
    site: &mut SimSite,
    row: &str,
    log: &str,
    statuses: &str,
) -> Result<(), Fail> {
    check_statuses(alloc, site, row, statuses)?;
    check_log(alloc, site, row, log)
}
