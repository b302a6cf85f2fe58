//! The play of a script, and what it writes.
ghost use Rattle.std.specs.Prelude.{◌≡◌, ◌⊎◌, ◌≤◌, List, ℕ, Ok};
ghost use Rattle.gw_site.specs.Failures.{Rose};
ghost use Rattle.gw_run.specs.LogWritten.{Adds};
ghost use Rattle.gw_run.specs.Replay.{HasEnd, IsFresh, IsPlayEnd, IsPlayOf, IsWrittenEnd, PlayPrinted};
ghost use Rattle.gw_run.specs.PlayedRuns.{IsUnbegun};
ghost use Rattle.gw_script.specs.site.Decode.{script_of};
ghost use Rattle.gw_run.specs.Top.{ShowsEnd};
ghost use Rattle.sim_site.specs.Sites.{played_script, sim_observed};

use crate::ending::Ending;
use crate::last_lines::write_last_lines;
use crate::one_run::ending_of;
use crate::runs::play_site;
use crate::text::{Unwritten, write_log};
use gw_books::law_headline;
use gw_site::{Sink, Turn};
use sim_site::SimSite;
use std::alloc::Global;

/// Writes the text of the log and the lines after it.
fn write_play<O: Sink>(alloc: Global, log: &[Turn], ending: Ending, out: &mut O) -> Ending
    requires { (ending ≡ Ending.Memory) ⊎ ShowsEnd ending log.now }
    ensures printed { (text : List ℕ) → IsPlayOf text ending log.now → Adds (O.written out.old) (O.written out.new) (PlayPrinted text result) }
    ensures which { IsWrittenEnd ending result }
    ensures output_failed { result ≡ Ending.OutputFailed → Rose (O.faults out.old) (O.faults out.new) }
    ensures later { O.faults out.old ≤ O.faults out.new }
{
    law_headline();
    match write_log(alloc, log, out) {
        Ok(()) => write_last_lines(alloc, ending, out),
        Err(Unwritten::Memory) => write_last_lines(alloc, Ending::Memory, out),
        Err(Unwritten::Sink) => Ending::OutputFailed,
    }
}

/// Plays the script of a site, of which nothing was played, and writes its log.
pub(crate) fn play<O: Sink>(alloc: Global, site: &mut SimSite, out: &mut O) -> Ending
    requires { IsUnbegun (played_script site.old).lines (sim_observed site.old) }
    ensures printed { (text : List ℕ) → script_of text ≡ Ok (played_script site.old) → IsFresh (sim_observed site.old) text (played_script site.old)
        → Adds (O.written out.old) (O.written out.new) (PlayPrinted text result) }
    ensures end { (text : List ℕ) → script_of text ≡ Ok (played_script site.old) → IsFresh (sim_observed site.old) text (played_script site.old)
        → HasEnd text result }
    ensures which { IsPlayEnd result }
    ensures output_failed { result ≡ Ending.OutputFailed → Rose (O.faults out.old) (O.faults out.new) }
    ensures later { O.faults out.old ≤ O.faults out.new }
{
    let end = play_site(alloc, site);
    write_play(alloc, site.log().as_slice(), ending_of(end.ended), out)
}
