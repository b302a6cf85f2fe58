//! The headline over two disks: one run, and the program's top call, over the site that is made of a pair of disks.
#![tactic(auto)]

ghost use Rattle.std.specs.Prelude.{◌≡◌, ℕ};
ghost use Rattle.gw_base.specs.Setup.{IsSetup};
ghost use Rattle.gw_site.specs.Observed.{IfObserved};
ghost use Rattle.gw_books.specs.PastLaws.{AgreesThroughout};
ghost use Rattle.gw_rules.specs.Lawful.{IsClear, Stands};
ghost use Rattle.gw_rules.specs.Triple.{IsRun, RunTriple};
ghost use Rattle.gw_rules.specs.View.{View};
ghost use Rattle.gw_run.specs.RunEnds.{EndsWithStatus};
ghost use Rattle.gw_run.specs.Serve.{IsSetupOfInput, Serves};
ghost use Rattle.gw_run.specs.Words.{AskToServe};

use gw_base::{Setup, Text};
use gw_run::{run, top};
use gw_site::{Sink, Site, Source};
use jrn_mirror::{Mirror, Pair};
use std::alloc::Global;

/// One run over two disks. If the log of one disk that the pair's is for is lawful, and no call on both disks has failed since
/// the last power failure, it goes on lawfully, and the headline holds of it: each book that is honest agrees with what was
/// done and what tills were sent. So it is whichever disk is lost for good, and at whichever call.
pub fn run_on_two<P: Pair>(alloc: Global, setup: &Setup, mirror: &mut Mirror<P>, most: u64) -> u8
    requires { IsSetup setup.now }
    ensures lawful { RunTriple setup.now (⟦<Mirror<P> as Site>⟧.observed mirror.old) (⟦<Mirror<P> as Site>⟧.observed mirror.new) (IsRun setup.now) (EndsWithStatus result most) }
    ensures agrees { IfObserved (⟦<Mirror<P> as Site>⟧.observed mirror.old) (λ before. (v : View) → Stands before v → IsClear v → IfObserved (⟦<Mirror<P> as Site>⟧.observed mirror.new) AgreesThroughout) }
{
    run(alloc, setup, mirror, most)
}

/// The program's top call over two disks. With words that ask to serve, the headline holds of the log of one disk in the same
/// way.
pub fn top_on_two<P: Pair, I: Source, O: Sink>(
    alloc: Global,
    words: &[Text],
    mirror: &mut Mirror<P>,
    input: &mut I,
    out: &mut O,
) -> u8
    ensures { (most : ℕ) → AskToServe words.now most → IfObserved (⟦<Mirror<P> as Site>⟧.observed mirror.old) (λ before. (v : View) → Stands before v → IsClear v
        → Serves (IsSetupOfInput (I.left input.old)) most (result ≡ 0) before (⟦<Mirror<P> as Site>⟧.observed mirror.new)) }
{
    top(alloc, words, mirror, input, out)
}
