//! The mode `drill`: its site is played to the end, and what is counted then is written.
ghost use Rattle.std.specs.Prelude.{◌≡◌, ◌≤◌, ℕ, Some, IfErr, IfOk, string_bytes};
ghost use Rattle.gw_script.specs.site.Peers.{book_of_peer};
ghost use Rattle.gw_run.specs.Drill.{DrillCause, DrillPrinted, HasCounted, drill_text};
ghost use Rattle.gw_run.specs.Drills.{CountsWritten, HasRunDrill, IsDrillEnd, IsPlayedAt, IsRunDrill};
ghost use Rattle.gw_run.specs.LogWritten.{Adds};
ghost use Rattle.gw_run.specs.Top.{stream_observed};
ghost use Rattle.gw_site.specs.Failures.{Rose};
ghost use Rattle.sim_site.specs.Sites.{place_of};

use crate::ending::Ending;
use crate::last_lines::write_last_lines;
use crate::one_run::ending_of;
use crate::runs::play_site;
use gw_books::law_headline;
use gw_dispatch::{Ended, TalliedEnd};
use gw_drill::{Counts, law_drill_books};
use gw_rules::{law_kept_files, law_one_course};
use gw_site::{Failed, Sink};
use pt_core::{Book, law_book};
use sim_site::SimSite;
use std::alloc::{AllocError, Global};
use std::mem;

/// The six lines, and the status line.
fn drill_text(alloc: Global, counts: &Counts) -> Result<String, AllocError>
    ensures { IfOk result (λ text. string_bytes text ≡ drill_text counts.now) }
{
    let mut text = counts.lines(alloc)?;
    text.push_str("status 0\n")?;
    Ok(text)
}

/// Writes the lines of a drill that was played to its end.
fn write_counts<O: Sink>(alloc: Global, counts: &Counts, out: &mut O) -> Ending
    ensures observed { Adds (O.written out.old) (O.written out.new) (CountsWritten counts.now result) }
    ensures which { IsDrillEnd result }
    ensures output_failed { result ≡ Ending.OutputFailed → Rose (O.faults out.old) (O.faults out.new) }
    ensures later { O.faults out.old ≤ O.faults out.new }
{
    match drill_text(alloc, counts) {
        Ok(text) => match out.write(text.as_bytes()) {
            Ok(()) => Ending::Played,
            Err(Failed) => Ending::OutputFailed,
        },
        Err(AllocError) => write_last_lines(alloc, Ending::Memory, out),
    }
}

/// The book of the terminal of this number, which is played.
fn book_of(site: &SimSite, pt: u16) -> &Book
    requires { IsPlayedAt site.now pt }
    ensures { Some result.now ≡ book_of_peer (place_of site.now).peers pt }
{
    site.book(pt).unwrap()
}

/// What is counted once all of a drill was played; else how it ended.
fn counts_after(site: &SimSite, end: TalliedEnd) -> Result<Counts, Ending>
    requires { IsRunDrill end site.now }
    ensures counted { (from payments : ℕ) → HasRunDrill from payments end site.now → IfOk result (HasCounted from payments) }
    ensures refused { IfErr result (λ ending. ending ≡ Ending.Memory) }
{
    law_headline();
    law_kept_files();
    law_one_course();
    law_drill_books();
    law_book();
    // The proof needs what is known of the log: its length, and how far the drill is played with it.
    let _log = site.log().as_slice();
    match end.ended {
        Ended::Done => Ok(Counts::of(end.tally, book_of(site, 0), book_of(site, 1))),
        ended => Err(ending_of(ended)),
    }
}

/// What the drill with these numbers counts once all of it was played; else how it ended.
///
/// The process ends after it, and gives all memory back at once: that of the site isn't given back turn by turn before.
fn drill_counts(alloc: Global, from: u64, payments: u32) -> Result<Counts, Ending>
    requires { payments ≤ 10000 }
    ensures counted { IfOk result (HasCounted from payments) }
    ensures refused { IfErr result (λ ending. ending ≡ Ending.Memory) }
{
    let mut site = match SimSite::played(alloc, from, payments) {
        Ok(site) => site,
        Err(AllocError) => return Err(Ending::Memory),
    };
    let end = play_site(alloc, &mut site);
    let counts = counts_after(&site, end);
    mem::forget(site);
    counts
}

/// The mode `drill`.
pub(crate) fn drill<O: Sink>(alloc: Global, from: u64, payments: u32, out: &mut O) -> Ending
    requires { payments ≤ 10000 }
    ensures cause { DrillCause from payments result (stream_observed O.written O.faults out.old out.new) }
    ensures printed { Adds (O.written out.old) (O.written out.new) (DrillPrinted from payments result) }
    ensures later { O.faults out.old ≤ O.faults out.new }
{
    match drill_counts(alloc, from, payments) {
        Ok(counts) => write_counts(alloc, &counts, out),
        Err(ending) => write_last_lines(alloc, ending, out),
    }
}
