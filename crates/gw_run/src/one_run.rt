//! One run over any site, and its status.
ghost use Rattle.std.specs.Prelude.{◌≡◌, ◌≤◌};
ghost use Rattle.gw_base.specs.Setup.{IsSetup};
ghost use Rattle.gw_site.specs.Failures.{Rose};
ghost use Rattle.gw_site.specs.Observed.{IfObserved};
ghost use Rattle.gw_books.specs.PastLaws.{AgreesThroughout};
ghost use Rattle.gw_rules.specs.Lawful.{IsClear, Stands};
ghost use Rattle.gw_rules.specs.Triple.{IsRun, RunTriple};
ghost use Rattle.gw_rules.specs.View.{View};
ghost use Rattle.gw_dispatch.specs.Growth.{AddsPolls, EndsForMemory, EndsInFailure, PollsToEnd};
ghost use Rattle.gw_dispatch.specs.RunEnd.{EndsByFound, NoneBegan};
ghost use Rattle.gw_run.specs.Serving.{IsRunEnding, MayReportMemory};
ghost use Rattle.gw_run.specs.RunEnds.{EndsRun, EndsWithStatus, GivesEnd, GivesStatus, ending_of};

use crate::ending::Ending;
use gw_base::Setup;
use gw_books::law_headline;
use gw_dispatch::{Ended, run as run_gateway};
use gw_site::Site;
use std::alloc::Global;

/// The end after a run that has ended so.
pub(crate) fn ending_of(ended: Ended) -> Ending
    ensures { result ≡ ending_of ended }
{
    match ended {
        Ended::Done => Ending::Played,
        Ended::NotOpened => Ending::NotOpened,
        Ended::NoMemory => Ending::Memory,
        Ended::Disk => Ending::Disk,
        Ended::TooLong { length } => Ending::LongJournal(length),
        Ended::Cut { slot } => Ending::CutJournal(slot),
        Ended::BadRecord { slot } => Ending::BadSlot(slot),
    }
}

/// One run over a site, of at most so many polls.
pub(crate) fn run_ended<S: Site>(alloc: Global, setup: &Setup, site: &mut S, most: u64) -> Ending
    requires { IsSetup setup.now }
    ensures which { IsRunEnding result }
    ensures lawful { RunTriple setup.now (S.observed site.old) (S.observed site.new) (IsRun setup.now) (EndsRun result most) }
    ensures file { IfObserved (S.observed site.old) (λ before. GivesEnd result (EndsByFound setup.now.slots before (S.observed site.new))) }
    ensures not_opened { result ≡ Ending.NotOpened → Rose (S.observed site.old).faults (S.observed site.new).faults }
    ensures none { result ≡ Ending.NotOpened → IfObserved (S.observed site.old) (λ before. NoneBegan before (S.observed site.new)) }
    ensures disk { result ≡ Ending.Disk → Rose (S.observed site.old).faults (S.observed site.new).faults }
    ensures failed { result ≡ Ending.Disk → IfObserved (S.observed site.old) (λ before. EndsInFailure (S.observed site.new)) }
    ensures memory { MayReportMemory result → IfObserved (S.observed site.old) (λ before. EndsForMemory (S.observed site.new)) }
    ensures polls { IfObserved (S.observed site.old) (λ before. AddsPolls most before (S.observed site.new)) }
    ensures done { result ≡ Ending.Played → IfObserved (S.observed site.old) (λ before. PollsToEnd most before (S.observed site.new)) }
    ensures later { (S.observed site.old).faults ≤ (S.observed site.new).faults }
{
    ending_of(run_gateway(alloc, setup, site, most))
}

/// One run over a site, of at most so many polls, and the exit status after it.
///
/// Where the log of the site is observed and lawful, and no call on the disk has failed since the last power failure, it goes on
/// lawfully by one run at most, in which each call is due. Where the site isn't dark then, the run has ended as its status says:
/// - 0: `Stopped` was polled, or all polls were made;
/// - 69: the site could not be opened;
/// - 71: memory was refused, before the first poll or in a round in which a till has opened or bytes of one have come;
/// - 74: a call on the disk has failed;
/// - 76: the journal is refused: it is too long for the setup's slots, or leaves fewer of them free than keys are open.
///
/// Of any log that is observed, 0 says that the site is dark, that `Stopped` was polled, or that exactly so many polls were made.
///
/// Whatever has written the file, 76 says of the one that the run has found that it is such, that it is cut in a slot, or that a slot
/// has no record that may follow those before it.
///
/// From such a log the headline holds of what the log then is, and of each of its prefixes, also where the site is dark: each book that is
/// honest agrees with what was done and what tills were sent.
///
/// `top` runs the script's site so, once more after each power failure.
pub fn run<S: Site>(alloc: Global, setup: &Setup, site: &mut S, most: u64) -> u8
    requires { IsSetup setup.now }
    ensures lawful { RunTriple setup.now (S.observed site.old) (S.observed site.new) (IsRun setup.now) (EndsWithStatus result most) }
    ensures file { IfObserved (S.observed site.old) (λ before. GivesStatus result (EndsByFound setup.now.slots before (S.observed site.new))) }
    ensures not_opened { result ≡ 69 → Rose (S.observed site.old).faults (S.observed site.new).faults }
    ensures none { result ≡ 69 → IfObserved (S.observed site.old) (λ before. NoneBegan before (S.observed site.new)) }
    ensures disk { result ≡ 74 → Rose (S.observed site.old).faults (S.observed site.new).faults }
    ensures failed { result ≡ 74 → IfObserved (S.observed site.old) (λ before. EndsInFailure (S.observed site.new)) }
    ensures memory { result ≡ 71 → IfObserved (S.observed site.old) (λ before. EndsForMemory (S.observed site.new)) }
    ensures polls { IfObserved (S.observed site.old) (λ before. AddsPolls most before (S.observed site.new)) }
    ensures done { result ≡ 0 → IfObserved (S.observed site.old) (λ before. PollsToEnd most before (S.observed site.new)) }
    ensures agrees { IfObserved (S.observed site.old) (λ before. (v : View) → Stands before v → IsClear v → IfObserved (S.observed site.new) AgreesThroughout) }
    ensures later { (S.observed site.old).faults ≤ (S.observed site.new).faults }
{
    law_headline();
    run_ended(alloc, setup, site, most).status()
}
