//! Runs over a drill's site, the power failures in them, and the tally of the records that are left.
use gw_dispatch::run;
use gw_ledger::{Ledger, Tally};
use jrn_log::Journal;
use sim_script::ImageKind;
use sim_site::SimSite;
use std::alloc::{AllocError, Global};
use std::test::Fail;

/// How many slots a journal has, which is more than a drill of three payments takes.
const SLOTS: u32 = 1_000;

/// When the power fails in a run, and what this leaves.
#[derive(Clone, Copy)]
pub(crate) struct Stop {
    /// After so many calls of the run.
    pub(crate) calls: u64,
    pub(crate) image: &'static str,
}

/// What a power failure leaves, by its name.
fn kind_of(image: &str) -> ImageKind {
    match image {
        "old" => ImageKind::Old,
        "new" => ImageKind::New,
        _ => ImageKind::Junk(0xA5),
    }
}

/// One run over the site.
fn run_once(alloc: Global, site: &mut SimSite) -> Result<(), AllocError> {
    let setup = site.setup(alloc)?;
    run(alloc, &setup, site, u64::MAX);
    Ok(())
}

/// The power is there again, where it has failed.
fn restart(alloc: Global, site: &mut SimSite) -> Result<(), AllocError> {
    if site.crashed() {
        site.restart(alloc)?;
    }
    Ok(())
}

/// One run over the site, in which the power fails. False where the run ends before that.
pub(crate) fn is_stopped(
    alloc: Global,
    site: &mut SimSite,
    stop: Stop,
) -> Result<bool, AllocError> {
    restart(alloc, site)?;
    site.stop_after(stop.calls, kind_of(stop.image));
    run_once(alloc, site)?;
    Ok(site.crashed())
}

/// One more run over the site where the power has failed, in which it doesn't. Whether the drill has come to its end.
pub(crate) fn is_ended(alloc: Global, site: &mut SimSite) -> Result<bool, AllocError> {
    if site.crashed() {
        site.restart(alloc)?;
        run_once(alloc, site)?;
    }
    Ok(site.ended() && !site.crashed() && !site.short())
}

/// The tally of the records in the file of the site, where the power fails once more and leaves all writes.
pub(crate) fn tally_of(alloc: Global, site: &mut SimSite) -> Result<Tally, Fail> {
    site.stop_after(0, ImageKind::New);
    restart(alloc, site)?;
    tally_in(alloc, site)
}

/// The tally of the records in the file of the site.
fn tally_in(alloc: Global, site: &mut SimSite) -> Result<Tally, Fail> {
    let Ok((_, bodies)) = Journal::open(alloc, site, SLOTS) else {
        return Err(Fail::from("no journal"));
    };
    match Ledger::from_records(alloc, &bodies) {
        Ok(ledger) => Ok(ledger.tally()),
        Err(_) => Err(Fail::from("no ledger")),
    }
}
