//! The runs over a site in memory: the engine is started again, with the same setup, after each power failure.
ghost use Rattle.std.specs.Prelude.{◌≡◌, ◌≢◌, ◌⊎◌, ℕ, Some, [], true, false, IfOk, OnErr};
ghost use Rattle.gw_base.specs.Setup.{IsSetup};
ghost use Rattle.gw_site.specs.Steps.{Plan};
ghost use Rattle.gw_script.specs.site.ScriptLine.{setup_of};
ghost use Rattle.gw_run.specs.PlayedRuns.{FailsAtMost, HasPlayed, HasRunAgain, HasTalliedFrom, IsUnbegun};
ghost use Rattle.sim_site.specs.Sites.{is_crashed, log_of, played_script, sim_observed};

use gw_base::Setup;
use gw_dispatch::{Ended, TalliedEnd, run_tallied};
use gw_rules::law_openings;
use sim_site::SimSite;
use std::alloc::{AllocError, Global};

/// The first run over a site.
fn run_first(alloc: Global, setup: &Setup, site: &mut SimSite) -> TalliedEnd
    requires setup { IsSetup setup.now }
    requires unplayed { (sim_observed site.old).log ≡ Some [] }
    ensures run { HasTalliedFrom (sim_observed site.old) setup.now result (sim_observed site.new) (log_of site.new) }
    ensures origin { (sim_observed site.new).origin ≡ (sim_observed site.old).origin }
{
    law_openings();
    run_tallied(alloc, setup, site, u64::MAX)
}

/// One more run over a site, once the power is there again.
fn run_again(alloc: Global, setup: &Setup, site: &mut SimSite) -> Result<TalliedEnd, AllocError>
    requires setup { IsSetup setup.now }
    requires crashed { is_crashed site.old ≡ true }
    ensures run { (whole : Plan) (most : ℕ) → FailsAtMost most whole → HasPlayed setup.now whole (sim_observed site.old).plan (log_of site.old)
        → IfOk result (λ end. HasRunAgain setup.now whole most end (log_of site.old) (sim_observed site.new) (log_of site.new)) }
    ensures refused { OnErr result (sim_observed site.new ≡ sim_observed site.old) }
    ensures origin { (sim_observed site.new).origin ≡ (sim_observed site.old).origin }
{
    law_openings();
    match site.restart(alloc) {
        Ok(()) => Ok(run_tallied(alloc, setup, site, u64::MAX)),
        Err(AllocError) => Err(AllocError),
    }
}

/// The end after the last run: that of the run, but that memory was refused where the log could not grow.
fn end_of(site: &SimSite, end: TalliedEnd) -> TalliedEnd
    requires { is_crashed site.now ≡ false }
    ensures which { (result.ended ≡ Ended.NoMemory) ⊎ ((result ≡ end) × ((sim_observed site.now).dark ≡ false)) }
{
    if site.short() {
        TalliedEnd::untallied(Ended::NoMemory)
    } else {
        end
    }
}

/// All runs over a site: the engine is started again, with the same setup, after each power failure.
fn play_runs(alloc: Global, setup: &Setup, site: &mut SimSite) -> TalliedEnd
    requires setup { IsSetup setup.now }
    requires unplayed { IsUnbegun (played_script site.old).lines (sim_observed site.old) }
    ensures run { HasTalliedFrom (sim_observed site.old) setup.now result (sim_observed site.new) (log_of site.new) }
    ensures lit { result.ended ≢ Ended.NoMemory → (sim_observed site.new).dark ≡ false }
    ensures origin { (sim_observed site.new).origin ≡ (sim_observed site.old).origin }
{
    let mut end = run_first(alloc, setup, site);
    while site.crashed() {
        match run_again(alloc, setup, site) {
            Ok(last) => end = last,
            Err(AllocError) => return TalliedEnd::untallied(Ended::NoMemory),
        }
    }
    end_of(site, end)
}

/// Plays a site of which nothing was played, in runs that start with its setup.
pub(crate) fn play_site(alloc: Global, site: &mut SimSite) -> TalliedEnd
    requires { IsUnbegun (played_script site.old).lines (sim_observed site.old) }
    ensures run { HasTalliedFrom (sim_observed site.old) (setup_of (played_script site.old).given) result (sim_observed site.new) (log_of site.new) }
    ensures lit { result.ended ≢ Ended.NoMemory → (sim_observed site.new).dark ≡ false }
    ensures origin { (sim_observed site.new).origin ≡ (sim_observed site.old).origin }
{
    match site.setup(alloc) {
        Ok(setup) => play_runs(alloc, &setup, site),
        Err(AllocError) => TalliedEnd::untallied(Ended::NoMemory),
    }
}
