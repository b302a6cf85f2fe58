//! The last lines of the output, after the log.
ghost use Rattle.std.specs.Prelude.{◌≡◌, ◌≢◌, ◌⊎◌, ◌≤◌, ◌++◌, List, ℕ, Some, Ok, IfOk, string_bytes};
ghost use Rattle.gw_site.specs.Failures.{Rose};
ghost use Rattle.gw_run.specs.LogWritten.{Adds};
ghost use Rattle.gw_run.specs.Replay.{HasNumber, WritesTail, IsReportedEnd};
ghost use Rattle.gw_run.specs.Top.{tail_of};

use crate::ending::Ending;
use gw_site::{Failed, Sink};
use std::alloc::{AllocError, Global};

/// Writes the last lines.
fn end_with<O: Sink>(ending: Ending, tail: &str, out: &mut O) -> Ending
    requires { tail.now ≡ tail_of ending }
    ensures observed { Adds (O.written out.old) (O.written out.new) (WritesTail ending result) }
    ensures output_failed { result ≡ Ending.OutputFailed → (ending ≡ Ending.OutputFailed) ⊎ Rose (O.faults out.old) (O.faults out.new) }
    ensures which { (result ≡ ending) ⊎ (result ≡ Ending.OutputFailed) }
    ensures later { O.faults out.old ≤ O.faults out.new }
{
    match out.write(tail.as_bytes()) {
        Ok(()) => ending,
        Err(Failed) => Ending::OutputFailed,
    }
}

/// The lines for a wrong line of the script.
fn line_tail(alloc: Global, line: u32) -> Result<String, AllocError>
    ensures { IfOk result (λ text. string_bytes text ≡ tail_of (Ending.Line line)) }
{
    format!(in alloc; "script {line}\nstatus 65\n")
}

/// The lines for a journal that is too long.
fn long_tail(alloc: Global, length: u64) -> Result<String, AllocError>
    ensures { IfOk result (λ text. string_bytes text ≡ tail_of (Ending.LongJournal length)) }
{
    format!(in alloc; "journal long {length}\nstatus 76\n")
}

/// The lines for a journal that is cut.
fn cut_tail(alloc: Global, slot: u32) -> Result<String, AllocError>
    ensures { IfOk result (λ text. string_bytes text ≡ tail_of (Ending.CutJournal slot)) }
{
    format!(in alloc; "journal cut {slot}\nstatus 76\n")
}

/// The lines for a slot of the journal that is refused.
fn slot_tail(alloc: Global, slot: u32) -> Result<String, AllocError>
    ensures { IfOk result (λ text. string_bytes text ≡ tail_of (Ending.BadSlot slot)) }
{
    format!(in alloc; "journal slot {slot}\nstatus 76\n")
}

/// Writes the last lines of an end whose fault line has a number.
fn end_numbered<O: Sink>(ending: Ending, tail: Result<String, AllocError>, out: &mut O) -> Ending
    requires numbered { HasNumber ending }
    requires tail { IfOk tail (λ text. string_bytes text ≡ tail_of ending) }
    ensures observed { Adds (O.written out.old) (O.written out.new) (WritesTail ending result) }
    ensures which { IsReportedEnd ending result }
    ensures output_failed { result ≡ Ending.OutputFailed → Rose (O.faults out.old) (O.faults out.new) }
    ensures later { O.faults out.old ≤ O.faults out.new }
{
    match tail {
        Ok(lines) => end_with(ending, &lines, out),
        Err(AllocError) => end_with(Ending::Memory, "memory\nstatus 71\n", out),
    }
}

/// Writes the fault line, where there is one, and the status line.
pub(crate) fn write_last_lines<O: Sink>(alloc: Global, ending: Ending, out: &mut O) -> Ending
    requires { ending ≢ Ending.OutputFailed }
    ensures observed { Adds (O.written out.old) (O.written out.new) (WritesTail ending result) }
    ensures which { IsReportedEnd ending result }
    ensures output_failed { result ≡ Ending.OutputFailed → Rose (O.faults out.old) (O.faults out.new) }
    ensures later { O.faults out.old ≤ O.faults out.new }
{
    match ending {
        Ending::Played => end_with(ending, "status 0\n", out),
        Ending::Words => end_with(ending, "words\nstatus 64\n", out),
        Ending::Long => end_with(ending, "script long\nstatus 65\n", out),
        Ending::Line(line) => end_numbered(ending, line_tail(alloc, line), out),
        Ending::Input => end_with(ending, "input\nstatus 66\n", out),
        Ending::NotOpened => end_with(ending, "open\nstatus 69\n", out),
        Ending::Memory => end_with(ending, "memory\nstatus 71\n", out),
        Ending::OutputFailed => Ending::OutputFailed,
        Ending::Disk => end_with(ending, "disk\nstatus 74\n", out),
        Ending::LongJournal(length) => end_numbered(ending, long_tail(alloc, length), out),
        Ending::CutJournal(slot) => end_numbered(ending, cut_tail(alloc, slot), out),
        Ending::BadSlot(slot) => end_numbered(ending, slot_tail(alloc, slot), out),
    }
}
