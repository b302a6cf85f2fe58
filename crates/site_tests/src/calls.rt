//! Calls on the site in memory, given as words, and what they leave in its log.
ghost use Rattle.std.specs.Prelude.{◌≡◌, [], IfOk};
ghost use Rattle.sim_site.specs.Sites.{log_of};

use crate::turns::{push_hex, push_turns};
use anyhow::Context;
use gw_base::{Bytes, Setup};
use gw_site::{Failed, Site, What};
use sim_script::ImageKind;
use sim_site::SimSite;
use std::alloc::{AllocError, Global};

/// The text up to the first colon, and what comes after that.
fn halves(text: &str) -> (&str, &str) {
    text.split_once(':').unwrap_or((text, ""))
}

/// What a call returns, where the log doesn't say it.
#[derive(Clone, Copy)]
enum Returned {
    Made,
    Failed,
    /// A poll brings the stop.
    Stopped,
    Length(u64),
    Bytes([u8; 4]),
}

/// What a call returns that has failed or not.
fn returned_by(outcome: Result<(), Failed>) -> Returned {
    match outcome {
        Ok(()) => Returned::Made,
        Err(Failed) => Returned::Failed,
    }
}

/// A site that plays this script, with an empty log.
pub fn new_site(alloc: Global, script: &str) -> anyhow::Result<SimSite>
    ensures { IfOk result (λ site. log_of site ≡ []) }
{
    match SimSite::from_script(alloc, &Bytes::copied(alloc, script.as_bytes())?) {
        Ok(site) => Ok(site),
        Err(_) => anyhow::bail!("no script"),
    }
}

/// How many turns the log has.
pub fn turns_of(site: &SimSite) -> usize {
    site.log().as_slice().len()
}

/// The setup with which the next run starts.
pub fn setup_of(alloc: Global, site: &SimSite) -> Result<Setup, AllocError> {
    site.setup(alloc)
}

/// A run begins.
fn open(alloc: Global, site: &mut SimSite) -> anyhow::Result<Returned> {
    let setup = site.setup(alloc)?;
    Ok(returned_by(site.open(&setup)))
}

/// The power is there again.
fn restart(alloc: Global, site: &mut SimSite) -> anyhow::Result<Returned> {
    if !site.crashed() {
        anyhow::bail!("the power has not failed");
    }
    site.restart(alloc)?;
    Ok(Returned::Made)
}

fn poll(site: &mut SimSite) -> Returned {
    match site.poll(&mut [0; 4096]).what {
        What::Stopped => Returned::Stopped,
        _ => Returned::Made,
    }
}

fn length(site: &mut SimSite) -> Returned {
    match site.length() {
        Ok(length) => Returned::Length(length),
        Err(Failed) => Returned::Failed,
    }
}

fn read(site: &mut SimSite, offset: u64) -> Returned {
    let mut bytes = [0xEE; 4];
    match site.read_at(offset, &mut bytes) {
        Ok(()) => Returned::Bytes(bytes),
        Err(Failed) => Returned::Failed,
    }
}

fn write(site: &mut SimSite, offset: u64, bytes: &[u8]) -> Returned {
    returned_by(site.write_at(offset, bytes))
}

fn sync(site: &mut SimSite) -> Returned {
    returned_by(site.sync())
}

fn link(site: &mut SimSite, pt: u16) -> Returned {
    returned_by(site.link_pt(pt))
}

fn send_till(site: &mut SimSite, till: u64, bytes: &[u8]) -> Returned {
    returned_by(site.send_till(till, bytes))
}

fn send_pt(site: &mut SimSite, pt: u16, bytes: &[u8]) -> Returned {
    returned_by(site.send_pt(pt, bytes))
}

fn cut_till(site: &mut SimSite, till: u64) -> Returned {
    site.cut_till(till);
    Returned::Made
}

fn cut_pt(site: &mut SimSite, pt: u16) -> Returned {
    site.cut_pt(pt);
    Returned::Made
}

/// The power is to fail after so many more calls.
fn stop_after(site: &mut SimSite, calls: u64, image: ImageKind) -> Returned {
    site.stop_after(calls, image);
    Returned::Made
}

/// A number, which is 0 where none is given.
fn number_of(digits: &str) -> anyhow::Result<u64> {
    if digits.is_empty() {
        return Ok(0);
    }
    Ok(digits.parse::<u64>()?)
}

/// Makes the call of a word: its name, and after colons a number and bytes in hexadecimal. Beside the calls of a gateway there
/// are `restart`, after a power failure, and `stop-old`, `stop-new` and `stop-junk`, by which the power is to fail.
fn make(alloc: Global, site: &mut SimSite, word: &str) -> anyhow::Result<Returned> {
    let (name, rest) = halves(word);
    let (number, digits) = halves(rest);
    let number = number_of(number)?;
    let bytes = hex::decode(alloc, digits)?;
    make_named(alloc, site, name, number, &bytes)
}

/// Makes the call of this name.
fn make_named(
    alloc: Global,
    site: &mut SimSite,
    name: &str,
    number: u64,
    bytes: &[u8],
) -> anyhow::Result<Returned> {
    match name {
        "open" => open(alloc, site),
        "restart" => restart(alloc, site),
        "poll" => Ok(poll(site)),
        "length" => Ok(length(site)),
        "read" => Ok(read(site, number)),
        "write" => Ok(write(site, number, bytes)),
        "sync" => Ok(sync(site)),
        _ => make_on_connection(site, name, number, bytes),
    }
}

/// Makes the call of this name, of a connection.
fn make_on_connection(
    site: &mut SimSite,
    name: &str,
    number: u64,
    bytes: &[u8],
) -> anyhow::Result<Returned> {
    match name {
        "send-till" => Ok(send_till(site, number, bytes)),
        "cut-till" => Ok(cut_till(site, number)),
        "link" => Ok(link(site, u16::try_from(number)?)),
        "send-pt" => Ok(send_pt(site, u16::try_from(number)?, bytes)),
        "cut-pt" => Ok(cut_pt(site, u16::try_from(number)?)),
        _ => make_stop(site, name, number, bytes),
    }
}

/// The power is to fail after so many more calls, and to leave what this name says.
fn make_stop(site: &mut SimSite, name: &str, calls: u64, bytes: &[u8]) -> anyhow::Result<Returned> {
    let image = match name {
        "stop-old" => ImageKind::Old,
        "stop-new" => ImageKind::New,
        "stop-junk" => ImageKind::Junk(*bytes.first().context("no byte")?),
        _ => anyhow::bail!("no call"),
    };
    Ok(stop_after(site, calls, image))
}

fn push_outcome(out: &mut String, returned: Returned) -> Result<(), AllocError> {
    match returned {
        Returned::Made => Ok(()),
        Returned::Failed => out.push_str("> = failed\n"),
        Returned::Stopped => out.push_str("> = stopped\n"),
        Returned::Length(length) => write!(out, "> = {length}\n"),
        Returned::Bytes(bytes) => {
            out.push_str("> = ")?;
            push_hex(out, &bytes)?;
            out.push_str("\n")
        }
    }
}

/// Makes the call of a word, and appends what it leaves in the log, and after `= ` what it returns.
fn push_call(
    alloc: Global,
    out: &mut String,
    site: &mut SimSite,
    word: &str,
) -> anyhow::Result<()> {
    let before = turns_of(site);
    let returned = make(alloc, site, word)?;
    push_turns(out, site.log().as_slice(), before)?;
    push_outcome(out, returned)?;
    Ok(())
}

/// Makes the calls of some words, and appends what they leave in the log and return.
pub fn push_calls(
    alloc: Global,
    out: &mut String,
    site: &mut SimSite,
    calls: &str,
) -> anyhow::Result<()> {
    for word in calls.split_whitespace() {
        push_call(alloc, out, site, word)?;
    }
    Ok(())
}

/// Makes the calls of some words.
pub fn make_calls(alloc: Global, site: &mut SimSite, calls: &str) -> anyhow::Result<()> {
    let mut said = String::new(alloc);
    push_calls(alloc, &mut said, site, calls)
}

/// What a site reports of itself: that its script was read to the end, and that the power has failed.
pub fn report_of(site: &SimSite) -> &'static str {
    match (site.ended(), site.crashed(), site.short()) {
        (true, true, false) => "ended, crashed",
        (true, false, false) => "ended",
        (false, true, false) => "crashed",
        (false, false, false) => "neither",
        (_, _, true) => "short",
    }
}
