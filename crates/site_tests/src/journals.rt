//! Journals over the site in memory.
ghost use Rattle.std.specs.Prelude.{IfOk, OnOk};
ghost use Rattle.jrn_log.specs.Journal.{StandsFor};
ghost use Rattle.sim_site.specs.Sites.{sim_observed};

use crate::calls::{make_calls, turns_of};
use crate::turns::push_hex;
use anyhow::ensure;
use case_files::done;
use gw_base::Bodies;
use gw_site::Site;
use jrn_log::{AppendFault, Journal, OpenFault};
use sim_site::SimSite;
use std::alloc::{AllocError, Global};

/// As many slots as any case needs.
const SLOTS: u32 = 4;

const FIRST: [u8; 255] = [0xA5; 255];

const SECOND: [u8; 255] = [0x02; 255];

/// Opens the journal of a site's file.
fn opened(alloc: Global, site: &mut SimSite, slots: u32) -> Result<(Journal, Bodies), OpenFault>
    ensures { IfOk result (λ opened. StandsFor opened.0 (sim_observed site.new)) }
{
    Journal::open(alloc, site, slots)
}

/// The journal of a site's file.
fn opened_journal(alloc: Global, site: &mut SimSite, slots: u32) -> Result<Journal, OpenFault>
    ensures { IfOk result (λ journal. StandsFor journal (sim_observed site.new)) }
{
    let (journal, _) = opened(alloc, site, slots)?;
    Ok(journal)
}

/// The bodies of a site's file.
fn bodies_of(alloc: Global, site: &mut SimSite, slots: u32) -> Result<Bodies, OpenFault> {
    let (_, bodies) = opened(alloc, site, slots)?;
    Ok(bodies)
}

/// Keeps a body where there is room.
fn keep(site: &mut SimSite, journal: &mut Journal, body: &[u8; 255]) -> Result<u32, AppendFault>
    requires { StandsFor journal.old (sim_observed site.old) }
    ensures { OnOk result (StandsFor journal.new (sim_observed site.new)) }
{
    if journal.room() == 0 {
        return Err(AppendFault::Disk);
    }
    journal.append(site, body)
}

/// The journal is opened, and keeps a body. How many of these two returned Ok before one failed.
fn keep_one(alloc: Global, site: &mut SimSite, body: &[u8; 255]) -> usize {
    let Ok(mut journal) = opened_journal(alloc, site, SLOTS) else {
        return 0;
    };
    if keep(site, &mut journal, body).is_err() {
        return 1;
    }
    2
}

/// Whether the file's length is given.
fn has_length(site: &mut SimSite) -> bool {
    site.length().is_ok()
}

/// The journal is opened, keeps the first body, is opened again after a look at the file's length, and keeps the second. How
/// many of these five returned Ok before one failed.
fn keep_both(alloc: Global, site: &mut SimSite) -> usize {
    let kept = keep_one(alloc, site, &FIRST);
    if kept < 2 || !has_length(site) {
        return kept;
    }
    keep_one(alloc, site, &SECOND).saturating_add(3)
}

/// A body by a letter: `A` for the first kind, `B` for the second.
fn letter_of(body: &[u8]) -> &'static str {
    if body == FIRST.as_slice() {
        return "A";
    }
    if body == SECOND.as_slice() {
        return "B";
    }
    "?"
}

/// Appends the bodies of a site's file, each by its letter; `-` for none.
fn push_letters(alloc: Global, out: &mut String, site: &mut SimSite) -> anyhow::Result<()> {
    let Ok(bodies) = bodies_of(alloc, site, SLOTS) else {
        anyhow::bail!("no bodies");
    };
    if bodies.as_slice().is_empty() {
        out.push_str("-")?;
    }
    for body in bodies.as_slice() {
        out.push_str(letter_of(body.as_slice()))?;
    }
    Ok(())
}

/// Keeps both bodies until the power fails, and appends how many of the five calls returned Ok and how many turns the log then
/// has, and the bodies once the power is there again.
pub fn push_kept(alloc: Global, out: &mut String, site: &mut SimSite) -> anyhow::Result<()> {
    let kept = keep_both(alloc, site);
    let turns = turns_of(site);
    make_calls(alloc, site, "restart")?;
    write!(out, "> {kept} of 5, {turns} turns, ")?;
    push_letters(alloc, out, site)?;
    out.push_str("\n")?;
    Ok(())
}

/// Keeps both bodies until the power fails, and once more after the second stop.
pub fn push_kept_again(
    alloc: Global,
    out: &mut String,
    site: &mut SimSite,
    stop: &str,
) -> anyhow::Result<()> {
    let _ = keep_both(alloc, site);
    make_calls(alloc, site, "restart")?;
    make_calls(alloc, site, stop)?;
    push_kept(alloc, out, site)
}

/// Opens the journal of a site's file, and appends whether it is opened and how many turns this leaves.
pub fn push_opening(alloc: Global, out: &mut String, site: &mut SimSite) -> Result<(), AllocError> {
    let before = turns_of(site);
    let word = if bodies_of(alloc, site, SLOTS).is_ok() {
        "opened"
    } else {
        "refused"
    };
    let turns = turns_of(site).saturating_sub(before);
    write!(out, "> {word}, {turns} turns\n")
}

/// Appends how many bodies a journal of two slots finds, or why it finds none.
pub fn push_finding(alloc: Global, out: &mut String, site: &mut SimSite) -> Result<(), AllocError> {
    match bodies_of(alloc, site, 2) {
        Ok(bodies) => write!(out, "> bodies {}\n", bodies.as_slice().len()),
        Err(OpenFault::Cut { slot }) => write!(out, "> cut {slot}\n"),
        Err(OpenFault::TooLong { length }) => write!(out, "> too long {length}\n"),
        Err(OpenFault::Disk) => out.push_str("> disk\n"),
        Err(OpenFault::Memory) => out.push_str("> no memory\n"),
    }
}

/// Appends how many bodies a journal has and may still have, and the length of its file as it was opened.
fn push_sizes(out: &mut String, journal: &Journal) -> Result<(), AllocError> {
    let (count, room, length) = (journal.len(), journal.room(), journal.opened());
    write!(
        out,
        "> {count} bodies, room for {room}, opened on {length} bytes\n"
    )
}

/// Keeps the second body, and appends its slot.
fn push_slot(out: &mut String, site: &mut SimSite, journal: &mut Journal) -> anyhow::Result<()>
    requires { StandsFor journal.old (sim_observed site.old) }
{
    match keep(site, journal, &SECOND) {
        Ok(slot) => done(write!(out, "> slot {slot}\n")),
        Err(_) => anyhow::bail!("it isn't kept"),
    }
}

/// Keeps the second body, and appends the journal's sizes before and after that.
fn push_keeping(out: &mut String, site: &mut SimSite, journal: &mut Journal) -> anyhow::Result<()>
    requires { StandsFor journal.old (sim_observed site.old) }
{
    push_sizes(out, journal)?;
    push_slot(out, site, journal)?;
    done(push_sizes(out, journal))
}

/// Opens a journal of two slots, and keeps the second body.
fn push_second(alloc: Global, out: &mut String, site: &mut SimSite) -> anyhow::Result<()> {
    let Ok((mut journal, bodies)) = opened(alloc, site, 2) else {
        anyhow::bail!("no journal");
    };
    ensure!(bodies.as_slice().is_empty() && journal.is_empty(), "bodies");
    push_keeping(out, site, &mut journal)
}

/// Appends a file of one slot and the gate after it.
fn push_file(out: &mut String, site: &mut SimSite) -> anyhow::Result<()> {
    let mut file = [0xEE; 257];
    let length = site.length().unwrap_or(0);
    ensure!(site.read_at(0, &mut file).is_ok(), "it isn't read");
    write!(out, "> {length} ")?;
    push_hex(out, &file)?;
    out.push_str("\n")?;
    Ok(())
}

/// Opens a journal of two slots and appends its sizes.
fn push_opened(alloc: Global, out: &mut String, site: &mut SimSite) -> anyhow::Result<()> {
    match opened_journal(alloc, site, 2) {
        Ok(journal) => done(push_sizes(out, &journal)),
        Err(_) => anyhow::bail!("no journal"),
    }
}

/// Appends the sizes of a journal of two slots before and after it keeps the second body, its file then, and its sizes as it is
/// opened again.
pub fn push_one(alloc: Global, out: &mut String, site: &mut SimSite) -> anyhow::Result<()> {
    push_second(alloc, out, site)?;
    push_file(out, site)?;
    push_opened(alloc, out, site)
}
