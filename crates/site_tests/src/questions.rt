//! Questions by their first word.
ghost use Rattle.std.specs.Prelude.{◌≡◌, [], IfOk};
ghost use Rattle.sim_site.specs.Sites.{log_of};

use crate::calls::{make_calls, new_site, push_calls, report_of};
use crate::journals::{push_finding, push_kept, push_kept_again, push_one, push_opening};
use crate::scripts::{push_read, push_read_bytes, push_setup_of, push_terminals, text_of};
use case_files::{Questions, done};
use sim_site::SimSite;
use std::alloc::Global;

/// What the last line before has after this word.
fn last_of<'a>(before: &'a str, word: &str) -> Option<&'a str> {
    let mut last = None;
    for line in before.split('\n') {
        let (own, rest) = line.split_once(' ').unwrap_or((line, ""));
        if own == word {
            last = Some(rest);
        }
    }
    last
}

/// Lets a site hold the file of these digits.
fn hold(alloc: Global, site: &mut SimSite, digits: &str) -> anyhow::Result<()>
    requires { log_of site.old ≡ [] }
{
    let digits = text_of(alloc, digits)?;
    let file = hex::decode(alloc, digits.as_str())?;
    Ok(site.holding(alloc, file.as_slice())?)
}

/// The site that plays the script of the lines before.
fn site_without_file(alloc: Global, before: &str) -> anyhow::Result<SimSite>
    ensures { IfOk result (λ site. log_of site ≡ []) }
{
    let script = text_of(alloc, last_of(before, "script").unwrap_or(""))?;
    new_site(alloc, script.as_str())
}

/// The site that plays the script of the lines before, and holds their file where they have one.
fn site_of(alloc: Global, before: &str) -> anyhow::Result<SimSite> {
    let mut site = site_without_file(alloc, before)?;
    if let Some(digits) = last_of(before, "file") {
        hold(alloc, &mut site, digits)?;
    }
    Ok(site)
}

/// Appends the line of the log that a power failure leaves after the calls.
fn push_image(
    alloc: Global,
    out: &mut String,
    before: &str,
    calls: &str,
    stop: &str,
) -> anyhow::Result<()> {
    let mut site = site_of(alloc, before)?;
    make_calls(alloc, &mut site, calls)?;
    make_calls(alloc, &mut site, stop)?;
    push_calls(alloc, out, &mut site, "restart")
}

/// Appends what a power failure leaves after the calls: with the file of the last sync, with all writes, and with junk 41.
fn push_images(alloc: Global, out: &mut String, before: &str, calls: &str) -> anyhow::Result<()> {
    for stop in ["stop-old:0", "stop-new:0", "stop-junk:0:41"] {
        push_image(alloc, out, before, calls, stop)?;
    }
    Ok(())
}

/// Appends what a site reports after the calls.
fn push_report_of(
    alloc: Global,
    out: &mut String,
    site: &mut SimSite,
    calls: &str,
) -> anyhow::Result<()> {
    make_calls(alloc, site, calls)?;
    done(write!(out, "> {}\n", report_of(site)))
}

/// Makes the calls by which the power is to fail, and appends what the journal then does.
fn push_on_journal(
    alloc: Global,
    out: &mut String,
    site: &mut SimSite,
    word: &str,
    words: &str,
) -> anyhow::Result<()> {
    let (first, second) = words.split_once(' ').unwrap_or((words, ""));
    make_calls(alloc, site, first)?;
    match word {
        "keep" => push_kept(alloc, out, site),
        "keep_again" => push_kept_again(alloc, out, site, second),
        "opening" => done(push_opening(alloc, out, site)),
        "finding" => done(push_finding(alloc, out, site)),
        "keep_one" => push_one(alloc, out, site),
        _ => anyhow::bail!("no such question"),
    }
}

/// Appends the result of a question on the site of the lines before.
fn push_on_site(
    alloc: Global,
    out: &mut String,
    before: &str,
    word: &str,
    words: &str,
) -> anyhow::Result<()> {
    let mut site = site_of(alloc, before)?;
    match word {
        "calls" => push_calls(alloc, out, &mut site, words),
        "report" => push_report_of(alloc, out, &mut site, words),
        "setup" => done(push_setup_of(alloc, out, &site)),
        _ => push_on_journal(alloc, out, &mut site, word, words),
    }
}

/// The questions on scripts, calls and journals over the site in memory.
pub struct OnSites;

impl Questions for OnSites {
    fn push_result(
        alloc: Global,
        out: &mut String,
        before: &str,
        line: &str,
    ) -> anyhow::Result<()> {
        let (word, words) = line.split_once(' ').unwrap_or((line, ""));
        match word {
            "script" | "file" => Ok(()),
            "read_script" => push_read(alloc, out, words),
            "read_bytes" => push_read_bytes(alloc, out, words),
            "read_terminals" => push_terminals(alloc, out, words),
            "images" => push_images(alloc, out, before, words),
            _ => push_on_site(alloc, out, before, word, words),
        }
    }
}
