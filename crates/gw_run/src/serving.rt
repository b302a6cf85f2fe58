//! The mode `serve`, from its configuration to its last line.
ghost use Rattle.std.specs.Prelude.{◌≡◌, ◌≢◌, ◌⊎◌, ◌≤◌, List, ℕ, None, Some, IfErr, IfOk, length};
ghost use Rattle.gw_base.specs.Setup.{IsSetup};
ghost use Rattle.gw_site.specs.Failures.{Rose};
ghost use Rattle.gw_site.specs.Observed.{IfObserved};
ghost use Rattle.gw_config.specs.Faults.{document_limit};
ghost use Rattle.gw_dispatch.specs.Growth.{AddsPolls, PollsToEnd};
ghost use Rattle.gw_rules.specs.Lawful.{IsClear, Stands};
ghost use Rattle.gw_rules.specs.View.{View};
ghost use Rattle.gw_site.specs.declared.turn.Turn.{Turn};
ghost use Rattle.gw_run.specs.LogWritten.{Adds};
ghost use Rattle.gw_run.specs.Serve.{IsConfigOf, IsReadSetup, IsServable, IsSetupOfInput, RunCause, ServeCause, ServePrinted, Serves, TakesFile, serve_status, serve_tail, site_calls};
ghost use Rattle.gw_run.specs.Serving.{IsConfigEnd, IsDocumentEnd, IsInputEnd, IsReportedServe, IsRunEnding, RunPrinted, WritesServe, config_ending, input_ending};
ghost use Rattle.gw_run.specs.Top.{stream_observed};

use crate::ending::Ending;
use crate::input::read_input;
use crate::last_lines::write_last_lines;
use crate::one_run::run_ended;
use gw_base::{Bytes, Setup};
use gw_books::law_headline;
use gw_bytes::LONGEST_CONFIGURATION;
use gw_config::{ConfigFault, read_setup};
use gw_site::{Failed, Sink, Site, Source};
use std::alloc::{AllocError, Global};

/// How the mode `serve` ends.
#[derive(Drop)]
pub enum ServeEnding {
    /// The configuration has this fault: 65.
    Config(ConfigFault),
    /// It ends so, with the status of that.
    Other(Ending),
}

impl ServeEnding {
    /// The status.
    pub(crate) fn status(&self) -> u8
        ensures { result ≡ serve_status self.now }
    {
        match self {
            ServeEnding::Config(_) => 65,
            ServeEnding::Other(ending) => ending.status(),
        }
    }
}

/// What is reported of a document with this fault.
fn config_ending(fault: ConfigFault) -> ServeEnding
    ensures { result ≡ config_ending fault }
{
    match fault {
        ConfigFault::Memory => ServeEnding::Other(Ending::Memory),
        fault => ServeEnding::Config(fault),
    }
}

/// What is reported where the input isn't read to its end.
fn input_ending(ending: Ending) -> ServeEnding
    ensures { result ≡ input_ending ending }
{
    match ending {
        Ending::Long => ServeEnding::Config(ConfigFault::Long),
        ending => ServeEnding::Other(ending),
    }
}

/// The setup of a text within the limit, or what is reported of it.
fn setup_of_text(alloc: Global, text: &[u8]) -> Result<Setup, ServeEnding>
    ensures setup { IfOk result (IsConfigOf text.now) }
    ensures limits { IfOk result IsSetup }
    ensures fault { IfErr result (IsDocumentEnd text.now) }
{
    match read_setup(alloc, text) {
        Ok(setup) => Ok(setup),
        Err(fault) => Err(config_ending(fault)),
    }
}

/// The setup of the configuration that is read from the input, or what is reported of it.
fn read_config<I: Source>(alloc: Global, input: &mut I) -> Result<Setup, ServeEnding>
    ensures setup { IfOk result (IsReadSetup (I.left input.old) (I.left input.new)) }
    ensures limits { IfOk result IsSetup }
    ensures fault { IfErr result (λ ending. IsConfigEnd ending (stream_observed I.left I.faults input.old input.new)) }
    ensures later { I.faults input.old ≤ I.faults input.new }
{
    match read_input(alloc, input, LONGEST_CONFIGURATION) {
        Ok(text) => setup_of_text(alloc, &text),
        Err(ending) => Err(input_ending(ending)),
    }
}

/// The lines for a fault of the configuration.
fn config_tail(alloc: Global, fault: &ConfigFault) -> Result<Bytes, AllocError>
    ensures { IfOk result (λ lines. lines ≡ serve_tail (ServeEnding.Config fault.now)) }
{
    let mut lines = fault.line(alloc)?;
    lines.extend(b"\nstatus 65\n")?;
    Ok(lines)
}

/// Writes the lines of a fault of the configuration.
fn write_config<O: Sink>(alloc: Global, fault: ConfigFault, out: &mut O) -> ServeEnding
    ensures observed { Adds (O.written out.old) (O.written out.new) (WritesServe (ServeEnding.Config fault) result) }
    ensures which { IsReportedServe (ServeEnding.Config fault) result }
    ensures output_failed { result ≡ ServeEnding.Other Ending.OutputFailed → Rose (O.faults out.old) (O.faults out.new) }
    ensures later { O.faults out.old ≤ O.faults out.new }
{
    match config_tail(alloc, &fault) {
        Ok(lines) => match out.write(lines.as_slice()) {
            Ok(()) => ServeEnding::Config(fault),
            Err(Failed) => ServeEnding::Other(Ending::OutputFailed),
        },
        Err(AllocError) => ServeEnding::Other(write_last_lines(alloc, Ending::Memory, out)),
    }
}

/// Writes the lines of an end.
fn write_serve_lines<O: Sink>(alloc: Global, ending: ServeEnding, out: &mut O) -> ServeEnding
    requires { ending ≢ ServeEnding.Other Ending.OutputFailed }
    ensures observed { Adds (O.written out.old) (O.written out.new) (WritesServe ending result) }
    ensures which { IsReportedServe ending result }
    ensures output_failed { result ≡ ServeEnding.Other Ending.OutputFailed → Rose (O.faults out.old) (O.faults out.new) }
    ensures later { O.faults out.old ≤ O.faults out.new }
{
    match ending {
        ServeEnding::Config(fault) => write_config(alloc, fault, out),
        ServeEnding::Other(ending) => ServeEnding::Other(write_last_lines(alloc, ending, out)),
    }
}

/// One run over the site with this setup, of at most so many polls, and the lines of its end.
fn serve_setup<S: Site, O: Sink>(
    alloc: Global,
    setup: &Setup,
    most: u64,
    site: &mut S,
    out: &mut O,
) -> Ending
    requires { IsSetup setup.now }
    ensures cause { RunCause result setup.now (stream_observed O.written O.faults out.old out.new) (site_calls (S.observed site.old) (S.observed site.new)) }
    ensures printed { Adds (O.written out.old) (O.written out.new) (RunPrinted setup.now (stream_observed O.written O.faults out.old out.new) (site_calls (S.observed site.old) (S.observed site.new)) result) }
    ensures polls { IfObserved (S.observed site.old) (λ before. AddsPolls most before (S.observed site.new)) }
    ensures done { result ≡ Ending.Played → IfObserved (S.observed site.old) (λ before. PollsToEnd most before (S.observed site.new)) }
    ensures headline { IfObserved (S.observed site.old) (λ before. (v : View) → Stands before v → IsClear v → Serves (λ own. own ≡ setup.now) most (result ≡ Ending.Played) before (S.observed site.new)) }
    ensures complete { IfObserved (S.observed site.old) (λ before. TakesFile setup.now.slots before → ¬ Rose (S.observed site.old).faults (S.observed site.new).faults → ¬ Rose (O.faults out.old) (O.faults out.new) → (result ≡ Ending.Played) ⊎ (result ≡ Ending.Memory)) }
    ensures site_later { (S.observed site.old).faults ≤ (S.observed site.new).faults }
    ensures out_later { O.faults out.old ≤ O.faults out.new }
{
    law_headline();
    write_last_lines(alloc, run_ended(alloc, setup, site, most), out)
}

/// The mode `serve`: reads the configuration, and runs over the site for at most so many polls.
pub(crate) fn serve<S: Site, I: Source, O: Sink>(
    alloc: Global,
    most: u64,
    site: &mut S,
    input: &mut I,
    out: &mut O,
) -> ServeEnding
    ensures cause { ServeCause result (stream_observed I.left I.faults input.old input.new) (stream_observed O.written O.faults out.old out.new) (site_calls (S.observed site.old) (S.observed site.new)) }
    ensures printed { Adds (O.written out.old) (O.written out.new) (ServePrinted (λ other. ServeCause other (stream_observed I.left I.faults input.old input.new) (stream_observed O.written O.faults out.old out.new) (site_calls (S.observed site.old) (S.observed site.new))) result) }
    ensures polls { IfObserved (S.observed site.old) (λ before. AddsPolls most before (S.observed site.new)) }
    ensures done { result ≡ ServeEnding.Other Ending.Played → IfObserved (S.observed site.old) (λ before. PollsToEnd most before (S.observed site.new)) }
    ensures headline { IfObserved (S.observed site.old) (λ before. (v : View) → Stands before v → IsClear v → Serves (IsSetupOfInput (I.left input.old)) most (result ≡ ServeEnding.Other Ending.Played) before (S.observed site.new)) }
    ensures complete { IfObserved (S.observed site.old) (λ before. (text : List ℕ) → I.left input.old ≡ Some text → IsServable text before → ¬ Rose (I.faults input.old) (I.faults input.new)
        → ¬ Rose (S.observed site.old).faults (S.observed site.new).faults → ¬ Rose (O.faults out.old) (O.faults out.new) → (result ≡ ServeEnding.Other Ending.Played) ⊎ (result ≡ ServeEnding.Other Ending.Memory)) }
    ensures site_later { (S.observed site.old).faults ≤ (S.observed site.new).faults }
    ensures input_later { I.faults input.old ≤ I.faults input.new }
    ensures out_later { O.faults out.old ≤ O.faults out.new }
{
    law_headline();
    match read_config(alloc, input) {
        Ok(setup) => ServeEnding::Other(serve_setup(alloc, &setup, most, site, out)),
        Err(ending) => write_serve_lines(alloc, ending, out),
    }
}
