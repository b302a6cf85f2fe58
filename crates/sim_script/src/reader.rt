//! Reading a script.
ghost use Rattle.std.specs.Prelude.{◌≡◌, ◌<◌, ◌≤◌, ◌↔◌, ◌==◌, ◌∷◌, ◌⊎◌, ℕ, pos, length, position, option_map, option_and_then, Ok, Some, IfOk, IfErr, OnOk, IsErrOf};
ghost use Rattle.gw_base.specs.Moment.{last_moment};
ghost use Rattle.gw_script.specs.Decode.{is_blank, number, script_limit, split_lines};
ghost use Rattle.gw_script.specs.site.Decode.{entry_of, event_forms, failing_of, formed, forms, link_number, name_word, no_lines, number_within, polling, power_of, pt_bytes, script_of, setting, spelled, terminal_words, till_bytes, till_said, with_entry};
ghost use Rattle.gw_script.specs.site.ScriptLine.{At, Close, Fail, Lose, Name, Open, Playing, Queue, Setting, Slots, Wait};
ghost use Rattle.sim_script.specs.Read.{IsTakenIn, IsScriptFault, read_line_value};
ghost use Rattle.sim_script.specs.Values.{script_event_value, script_line_value, whole_script_value, setting_value};

use crate::fault::ScriptFault;
use crate::line::{Given, Script, ScriptEvent, ScriptLine, SetupLine};
use crate::played_line::{failing_of, power_of, pt_bytes, till_bytes, till_said};
use crate::setup_line::{add_setting, terminal_words};
use crate::word::{first_word, link_number, name_word, number, number_within};
use gw_base::LAST_MOMENT;
use gw_bytes::{FEWEST_SLOTS, LONGEST_SCRIPT, LONGEST_WAIT, MOST_SLOTS, MOST_WAITING};
use memchr::memchr;
use std::alloc::{AllocError, Global};
use std::str;

/// What one line of the text is.
#[derive(Drop)]
pub enum ReadEntry {
    /// An empty line or a comment.
    Blank,
    Setting(SetupLine),
    Playing(ScriptLine),
}

/// A setup line, where there is one.
fn setting(line: Option<SetupLine>) -> Option<ReadEntry>
    ensures { option_map read_line_value result ≡ setting (option_map setting_value line) }
{
    Some(ReadEntry::Setting(line?))
}

/// The line of a poll that brings this.
fn polling(event: Option<ScriptEvent>) -> Option<ReadEntry>
    ensures { option_map read_line_value result ≡ polling (option_map script_event_value event) }
{
    Some(ReadEntry::Playing(ScriptLine::Poll(event?)))
}

/// A line that is played, where there is one.
fn playing(line: Option<ScriptLine>) -> Option<ReadEntry>
    ensures { option_map read_line_value result ≡ option_map Playing (option_map script_line_value line) }
{
    Some(ReadEntry::Playing(line?))
}

/// The moment that `at` and this word give.
fn moment(word: &str) -> Option<ScriptLine>
    ensures { option_map script_line_value result ≡ option_map (λ n. At (pos n)) (number_within 0 last_moment word.now) }
{
    let n = number_within(0, LAST_MOMENT as u64, word)?;
    Some(ScriptLine::At(n as i64))
}

/// The line `open` with this word after it.
fn open_line(word: &str) -> Option<ReadEntry>
    ensures { option_map read_line_value result ≡ polling (option_map Open (number word.now)) }
{
    polling(number(word).map(ScriptEvent::Open))
}

/// The line `close` with this word after it.
fn close_line(word: &str) -> Option<ReadEntry>
    ensures { option_map read_line_value result ≡ polling (option_map Close (number word.now)) }
{
    polling(number(word).map(ScriptEvent::Close))
}

/// The line `till` with this text after it.
fn till_line(alloc: Global, text: &str) -> Result<Option<ReadEntry>, AllocError>
    ensures { IfOk result (λ entry. option_map read_line_value entry ≡ polling (till_bytes text.now)) }
{
    Ok(polling(till_bytes(alloc, text)?))
}

/// The line `say` with this text after it.
fn say_line(alloc: Global, text: &str) -> Result<Option<ReadEntry>, AllocError>
    ensures { IfOk result (λ entry. option_map read_line_value entry ≡ polling (till_said text.now)) }
{
    Ok(polling(till_said(alloc, text)?))
}

/// The line `pt` with this text after it.
fn pt_line(alloc: Global, text: &str) -> Result<Option<ReadEntry>, AllocError>
    ensures { IfOk result (λ entry. option_map read_line_value entry ≡ polling (pt_bytes text.now)) }
{
    Ok(polling(pt_bytes(alloc, text)?))
}

/// The line `lost` with this word after it.
fn lost_line(word: &str) -> Option<ReadEntry>
    ensures { option_map read_line_value result ≡ polling (option_map Lose (link_number word.now)) }
{
    polling(link_number(word).map(ScriptEvent::Lose))
}

/// The line `fail` with this text after it.
fn fail_line(text: &str) -> Option<ReadEntry>
    ensures { option_map read_line_value result ≡ option_map (λ failing. Playing (Fail failing)) (failing_of text.now) }
{
    playing(failing_of(text).map(ScriptLine::Fail))
}

/// The line `power` with this text after it.
fn power_line(alloc: Global, text: &str) -> Result<Option<ReadEntry>, AllocError>
    ensures { IfOk result (λ entry. option_map read_line_value entry ≡ option_map Playing (power_of text.now)) }
{
    Ok(playing(power_of(alloc, text)?))
}

/// The line of a first word of these, by which a poll brings something or something fails, and of what follows its space.
fn event_formed(alloc: Global, word: &str, rest: &str) -> Result<Option<ReadEntry>, AllocError>
    ensures { IfOk result (λ entry. option_map read_line_value entry ≡ formed event_forms word.now rest.now) }
{
    if word == "open" {
        Ok(open_line(rest))
    } else if word == "close" {
        Ok(close_line(rest))
    } else if word == "till" {
        till_line(alloc, rest)
    } else if word == "say" {
        say_line(alloc, rest)
    } else if word == "pt" {
        pt_line(alloc, rest)
    } else if word == "lost" {
        Ok(lost_line(rest))
    } else if word == "fail" {
        Ok(fail_line(rest))
    } else if word == "power" {
        power_line(alloc, rest)
    } else {
        Ok(None)
    }
}

/// How many requests may wait, by this word.
fn queue(word: &str) -> Option<SetupLine>
    ensures { option_map setting_value result ≡ option_map Queue (number_within 0 8 word.now) }
{
    let n = number_within(0, u64::from(MOST_WAITING), word)?;
    Some(SetupLine::Queue(n as u8))
}

/// How long a request may wait, by this word.
fn wait(word: &str) -> Option<SetupLine>
    ensures { option_map setting_value result ≡ option_map Wait (number_within 1 3600 word.now) }
{
    let n = number_within(1, u64::from(LONGEST_WAIT), word)?;
    Some(SetupLine::Wait(n as u32))
}

/// How many records the journal holds, by this word.
fn slots(word: &str) -> Option<SetupLine>
    ensures { option_map setting_value result ≡ option_map Slots (number_within 2 1000000 word.now) }
{
    let n = number_within(u64::from(FEWEST_SLOTS), u64::from(MOST_SLOTS), word)?;
    Some(SetupLine::Slots(n as u32))
}

/// The line `name` with this word after it.
fn name_line(word: &str) -> Option<ReadEntry>
    ensures { option_map read_line_value result ≡ setting (option_map Name (name_word word.now)) }
{
    setting(name_word(word).map(SetupLine::Name))
}

/// The line `terminal` with this text after it.
fn terminal_line(alloc: Global, text: &str) -> Result<Option<ReadEntry>, AllocError>
    ensures { IfOk result (λ entry. option_map read_line_value entry ≡ setting (terminal_words text.now)) }
{
    Ok(setting(terminal_words(alloc, text)?))
}

/// The line of a first word and of what follows its space.
fn formed(alloc: Global, word: &str, rest: &str) -> Result<Option<ReadEntry>, AllocError>
    ensures { IfOk result (λ entry. option_map read_line_value entry ≡ formed forms word.now rest.now) }
{
    if word == "name" {
        Ok(name_line(rest))
    } else if word == "line" {
        Ok(setting(queue(rest)))
    } else if word == "wait" {
        Ok(setting(wait(rest)))
    } else if word == "slots" {
        Ok(setting(slots(rest)))
    } else if word == "terminal" {
        terminal_line(alloc, rest)
    } else if word == "at" {
        Ok(playing(moment(rest)))
    } else {
        event_formed(alloc, word, rest)
    }
}

/// Whether a line is empty or a comment.
fn is_blank(text: &[u8]) -> bool
    ensures { result ≡ is_blank text.now }
{
    match text {
        [] => true,
        [first, ..] => *first == b'#',
    }
}

/// The line that a text spells.
fn spelled(alloc: Global, text: &str) -> Result<Option<ReadEntry>, AllocError>
    ensures { IfOk result (λ entry. option_map read_line_value entry ≡ spelled text.now) }
{
    if is_blank(text.as_bytes()) {
        return Ok(Some(ReadEntry::Blank));
    }
    if text == "tick" {
        return Ok(polling(Some(ScriptEvent::Tick)));
    }
    match first_word(text) {
        Some((word, rest)) => formed(alloc, word, rest),
        None => Ok(None),
    }
}

/// The line that these bytes spell; none where they spell none of the grammar.
pub fn entry_of(alloc: Global, text: &[u8]) -> Result<Option<ReadEntry>, AllocError>
    ensures { IfOk result (λ entry. option_map read_line_value entry ≡ entry_of text.now) }
{
    match str::from_utf8(text) {
        Ok(text) => spelled(alloc, text),
        Err(_) => Ok(None),
    }
}

/// Adds a setup line to the script. False where it may not come there.
fn add_setup(script: &mut Script, line: SetupLine) -> Result<bool, AllocError>
    ensures { IfOk result (λ added. IsTakenIn added (with_entry (whole_script_value script.old) (Setting (setting_value line))) (whole_script_value script.new)) }
{
    if !script.lines.is_empty() {
        return Ok(false);
    }
    add_setting(&mut script.given, line)
}

/// Adds a line that is played to the script.
fn add_line(script: &mut Script, line: ScriptLine) -> Result<(), AllocError>
    ensures { OnOk result (with_entry (whole_script_value script.old) (Playing (script_line_value line)) ≡ Some (whole_script_value script.new)) }
{
    script.lines.push(line)?;
    Ok(())
}

/// Adds a line to the script. False where it may not come there.
fn add_entry(script: &mut Script, entry: ReadEntry) -> Result<bool, AllocError>
    ensures { IfOk result (λ added. IsTakenIn added (with_entry (whole_script_value script.old) (read_line_value entry)) (whole_script_value script.new)) }
{
    match entry {
        ReadEntry::Blank => Ok(true),
        ReadEntry::Setting(line) => add_setup(script, line),
        ReadEntry::Playing(line) => {
            add_line(script, line)?;
            Ok(true)
        }
    }
}

/// Adds the line that these bytes spell to the script. False where they spell none that may come there.
fn add_text(alloc: Global, script: &mut Script, text: &[u8]) -> Result<bool, AllocError>
    ensures { IfOk result (λ added. IsTakenIn added (option_and_then (with_entry (whole_script_value script.old)) (entry_of text.now)) (whole_script_value script.new)) }
{
    match entry_of(alloc, text)? {
        Some(entry) => add_entry(script, entry),
        None => Ok(false),
    }
}

/// The offset of the first line end.
fn line_end(bytes: &[u8]) -> Option<usize>
    ensures { result ≡ position (λ byte. byte == 10) bytes.now }
{
    memchr(b'\n', bytes)
}

/// The first text, and the bytes after its line end.
pub fn first_text(bytes: &[u8]) -> (&[u8], &[u8])
    requires { 0 < length bytes.now }
    ensures texts { split_lines bytes.now ≡ result.0.now ∷ split_lines result.1.now }
    ensures shorter { length result.1.now < length bytes.now }
{
    match line_end(bytes) {
        Some(end) => (&bytes[..end], &bytes[end + 1..]),
        None => (bytes, &[]),
    }
}

/// A script before its first line.
fn no_lines(alloc: Global) -> Script
    ensures { whole_script_value result ≡ no_lines }
{
    Script {
        given: Given {
            name: None,
            queue: None,
            wait: None,
            slots: None,
            terminals: Vec::new(alloc),
        },
        lines: Vec::new(alloc),
    }
}

/// Reads a script whole, by the grammar of all its lines: the script, or its first line of another form.
pub fn read_script(alloc: Global, bytes: &[u8]) -> Result<Script, ScriptFault>
    ensures ok { IfOk result (λ script. script_of bytes.now ≡ Ok (whole_script_value script)) }
    ensures within { OnOk result (length bytes.now ≤ script_limit) }
    ensures fault { IfErr result (IsScriptFault bytes.now) }

    // Exactly then, but that memory may be refused before the line is reached.
    ensures long { IsErrOf result ScriptFault.Long ↔ (script_limit < length bytes.now) }
    ensures line { (line : ℕ) → IsScriptFault bytes.now (ScriptFault.Line line)
        → IsErrOf result (ScriptFault.Line line) ⊎ IsErrOf result ScriptFault.Memory }
{
    if bytes.len() > LONGEST_SCRIPT {
        return Err(ScriptFault::Long);
    }
    let mut script = no_lines(alloc);
    let mut rest = bytes;
    let mut number = 1;
    while !rest.is_empty() {
        let (text, after) = first_text(rest);
        if !add_text(alloc, &mut script, text)? {
            return Err(ScriptFault::Line { line: number });
        }
        rest = after;
        number += 1;
    }
    Ok(script)
}
