//! The top call, and the mode `replay`, from its script to its last line.
ghost use Rattle.std.specs.Prelude.{◌≡◌, ◌≢◌, ◌⊎◌, ◌≤◌, ◌++◌, List, ℕ, Some, Ok, Err, IfOk, IfErr, length, map, string_bytes};
ghost use Rattle.gw_site.specs.Failures.{Rose};
ghost use Rattle.gw_site.specs.declared.turn.Turn.{Turn};
ghost use Rattle.gw_script.specs.Decode.{script_limit};
ghost use Rattle.gw_script.specs.site.Decode.{script_of};
ghost use Rattle.gw_site.specs.Observed.{IfObserved};
ghost use Rattle.gw_dispatch.specs.Growth.{AddsPolls, PollsToEnd};
ghost use Rattle.gw_rules.specs.Lawful.{IsClear, Stands};
ghost use Rattle.gw_rules.specs.View.{View};
ghost use Rattle.gw_run.specs.Drill.{HasDrilled};
ghost use Rattle.gw_run.specs.LogWritten.{Adds};
ghost use Rattle.gw_run.specs.Replay.{IsEndAfter, IsFresh, IsPlayEnd, IsTextEnd, IsTextFault, ReplayCause, ReplayPrinted, TextPrinted};
ghost use Rattle.gw_run.specs.Serve.{HasServed, IsServable, IsSetupOfInput, Serves, site_calls};
ghost use Rattle.gw_run.specs.Top.{IsEnded, IsLogWithin, IsPlayStatus, IsScriptLeft, IsStatusAfter, stream_observed};
ghost use Rattle.gw_run.specs.Words.{AskForDrill, AskForReplay, AskForReplayOrNothing, AskNotToServe, AskToReadNothing, AskToServe};
ghost use Rattle.sim_site.specs.Sites.{played_script, sim_observed};

use crate::drill::drill;
use crate::ending::Ending;
use crate::input::read_input;
use crate::last_lines::write_last_lines;
use crate::replay::play;
use crate::serving::serve;
use crate::words::{Mode, order_of};
use gw_base::{Bytes, Text};
use gw_books::law_headline;
use gw_bytes::LONGEST_SCRIPT;
use gw_site::{Sink, Site, Source};
use sim_script::ScriptFault;
use sim_site::SimSite;
use std::alloc::{AllocError, Global};
use std::mem;

/// The site that plays the script of this text; else what is reported of the text.
fn site_of(alloc: Global, text: &Bytes) -> Result<SimSite, Ending>
    requires within { length text.now ≤ script_limit }
    ensures fresh { IfOk result (λ site. IsFresh (sim_observed site) text.now (played_script site)) }
    ensures script { IfOk result (λ site. script_of text.now ≡ Ok (played_script site)) }
    ensures fault { IfErr result (IsTextFault text.now) }
{
    match SimSite::from_script(alloc, text) {
        Ok(site) => Ok(site),
        Err(ScriptFault::Long) => Err(Ending::Long),
        Err(ScriptFault::Line { line }) => Err(Ending::Line(line)),
        Err(ScriptFault::Memory) => Err(Ending::Memory),
    }
}

/// As [`site_of`], of a text that isn't kept: its memory is given back before the script is played.
fn site_of_input(alloc: Global, text: Vec<u8>) -> Result<SimSite, Ending>
    requires within { length text.items ≤ script_limit }
    ensures fresh { IfOk result (λ site. IsFresh (sim_observed site) text.items (played_script site)) }
    ensures script { IfOk result (λ site. script_of text.items ≡ Ok (played_script site)) }
    ensures fault { IfErr result (IsTextFault text.items) }
{
    site_of(alloc, &Bytes::new(text))
}

/// Plays the script of this text, or reports what is wrong with it.
///
/// The process ends after it, and gives all memory back at once: that of the site isn't given back turn by turn before.
fn play_text<O: Sink>(alloc: Global, text: Vec<u8>, out: &mut O) -> Ending
    requires within { length text.items ≤ script_limit }
    ensures printed { Adds (O.written out.old) (O.written out.new) (TextPrinted text.items result) }
    ensures end { IsTextEnd text.items result }
    ensures output_failed { result ≡ Ending.OutputFailed → Rose (O.faults out.old) (O.faults out.new) }
    ensures later { O.faults out.old ≤ O.faults out.new }
{
    match site_of_input(alloc, text) {
        Ok(mut site) => {
            let ending = play(alloc, &mut site, out);
            mem::forget(site);
            ending
        }
        Err(fault) => write_last_lines(alloc, fault, out),
    }
}

/// The mode `replay`.
fn replay<I: Source, O: Sink>(alloc: Global, input: &mut I, out: &mut O) -> Ending
    ensures printed { Adds (O.written out.old) (O.written out.new) (ReplayPrinted
        (stream_observed I.left I.faults input.old input.new)
        (stream_observed O.written O.faults out.old out.new) result) }
    ensures cause { ReplayCause result
        (stream_observed I.left I.faults input.old input.new)
        (stream_observed O.written O.faults out.old out.new) }
    ensures complete { IsScriptLeft (I.left input.old) → ¬ Rose (I.faults input.old) (I.faults input.new) → ¬ Rose (O.faults out.old) (O.faults out.new) → IsPlayEnd result }
    ensures log { (text : List ℕ) (log : List Turn) → I.left input.old ≡ Some text → IsLogWithin text log → ¬ Rose (I.faults input.old) (I.faults input.new) → ¬ Rose (O.faults out.old) (O.faults out.new) → IsEndAfter log result }
    ensures output_failed { result ≡ Ending.OutputFailed → Rose (O.faults out.old) (O.faults out.new) }
    ensures input_later { I.faults input.old ≤ I.faults input.new }
    ensures out_later { O.faults out.old ≤ O.faults out.new }
{
    match read_input(alloc, input, LONGEST_SCRIPT) {
        Ok(text) => play_text(alloc, text, out),
        Err(fault) => write_last_lines(alloc, fault, out),
    }
}

/// Runs the gateway in the mode that the words name, and gives its exit status.
///
/// The words are those of one command: `MODE`, and the options `--turns N`, `--from N` and `--payments N`. The modes are `serve`, `replay`
/// and `drill`.
///
/// - `serve` reads a configuration from the input, and runs the engine over the site that is handed in, for at most `--turns` polls,
///   however it ends.
/// - `replay` reads a script from the input, plays it, and writes the text of its log. The engine runs over the script's site, and is
///   started again, with the same setup, after each power failure. The site that is handed in gets no call.
/// - `drill` makes so many payments out of a number, plays them and two terminals, and writes what it counts: six lines, each with a number.
///   It reads nothing, and the site that is handed in gets no call.
///
/// The last line that it writes is `status N`, and before that is a line with the fault where there is one. The statuses are:
/// - 0: the script or the drill was played to its end; in `serve` all polls were made, or the site has stopped;
/// - 64: the words are refused (`words`);
/// - 65: the input is no script (`script N` with the number of its first wrong line, or `script long`), or no configuration (a line that
///   begins with `config`);
/// - 66: the input could not be read (`input`);
/// - 69: the site could not be opened in the last run (`open`);
/// - 71: memory was refused (`memory`); in `serve` what is observed of the site is as it was, or it was not polled yet, or its last event is that a till has
///   opened or sent bytes, or it is dark;
/// - 73: the output could not be written, whose last line may be incomplete;
/// - 74: a call on the disk has failed in the last run (`disk`);
/// - 76: the journal is refused (`journal long N`, `journal cut N` or `journal slot N`); that of a script never is, as all its runs have
///   the same slots.
///
/// Of the log of the site that it has served the headline holds, of each log whose text it writes, of that of a drill that was played to its
/// end, and of each prefix of these: each book of the terminals that is honest agrees with what was done and what tills were sent.
pub fn top<S: Site, I: Source, O: Sink>(
    alloc: Global,
    words: &[Text],
    site: &mut S,
    input: &mut I,
    out: &mut O,
) -> u8
    // With words that ask for a replay, or are refused.
    ensures ended { AskForReplayOrNothing words.now → IsEnded result words.now
        (stream_observed I.left I.faults input.old input.new)
        (stream_observed O.written O.faults out.old out.new) }

    // Nothing but 0, 69 or 74, or 71 without memory, where the input is a script and neither input nor output fails.
    ensures complete { AskForReplay words.now → IsScriptLeft (I.left input.old) → ¬ Rose (I.faults input.old) (I.faults input.new) → ¬ Rose (O.faults out.old) (O.faults out.new) → IsPlayStatus result }

    // And nothing but what the log of the script says, or 71.
    ensures log { AskForReplay words.now → (text : List ℕ) (log : List Turn) → I.left input.old ≡ Some text → IsLogWithin text log → ¬ Rose (I.faults input.old) (I.faults input.new) → ¬ Rose (O.faults out.old) (O.faults out.new) → IsStatusAfter log result }

    // With words that ask for a drill: 0, 71 or 73; and 0 or 71 where the output doesn't fail.
    ensures drilled { (from payments : ℕ) → AskForDrill words.now from payments → HasDrilled result from payments (stream_observed O.written O.faults out.old out.new) }
    ensures drill_complete { (from payments : ℕ) → AskForDrill words.now from payments → ¬ Rose (O.faults out.old) (O.faults out.new) → (result ≡ 0) ⊎ (result ≡ 71) }

    // With words that are refused, or ask for a drill, nothing is read, and the site that is handed in gets a call only where it is to be served.
    ensures unread { AskToReadNothing words.now → input.new ≡ input.old }
    ensures site { AskNotToServe words.now → site.new ≡ site.old }

    // With words that ask to serve.
    ensures served { (most : ℕ) → AskToServe words.now most → HasServed result
        (stream_observed I.left I.faults input.old input.new)
        (stream_observed O.written O.faults out.old out.new)
        (site_calls (S.observed site.old) (S.observed site.new)) }

    // However it ends, the site was polled no more often, and with 0 exactly so often or until the stop, or it is dark.
    ensures polls { (most : ℕ) → AskToServe words.now most → IfObserved (S.observed site.old) (λ before. AddsPolls most before (S.observed site.new)) }
    ensures done { (most : ℕ) → AskToServe words.now most → result ≡ 0 → IfObserved (S.observed site.old) (λ before. PollsToEnd most before (S.observed site.new)) }

    // The headline, from a lawful and clear log on.
    ensures headline { (most : ℕ) → AskToServe words.now most → IfObserved (S.observed site.old) (λ before. (v : View) → Stands before v → IsClear v
        → Serves (IsSetupOfInput (I.left input.old)) most (result ≡ 0) before (S.observed site.new)) }

    // Nothing but 0, or 71 without memory, where nothing fails, the input is a configuration, and no fault of the journal's file is to be reported.
    ensures serve_complete { (most : ℕ) → AskToServe words.now most → IfObserved (S.observed site.old) (λ before. (text : List ℕ) → I.left input.old ≡ Some text → IsServable text before
        → ¬ Rose (I.faults input.old) (I.faults input.new) → ¬ Rose (S.observed site.old).faults (S.observed site.new).faults → ¬ Rose (O.faults out.old) (O.faults out.new) → (result ≡ 0) ⊎ (result ≡ 71)) }
    ensures site_later { (S.observed site.old).faults ≤ (S.observed site.new).faults }
    ensures input_later { I.faults input.old ≤ I.faults input.new }
    ensures out_later { O.faults out.old ≤ O.faults out.new }
{
    law_headline();
    match order_of(alloc, words) {
        Ok(Some(order)) => match order.mode {
            Mode::Serve => serve(alloc, order.polls, site, input, out).status(),
            Mode::Replay => replay(alloc, input, out).status(),
            Mode::Drill { from, payments } => drill(alloc, from, payments, out).status(),
        },
        Ok(None) => write_last_lines(alloc, Ending::Words, out).status(),
        Err(AllocError) => write_last_lines(alloc, Ending::Memory, out).status(),
    }
}
