//! The text of a log.
ghost use Rattle.std.specs.Prelude.{◌≡◌, ◌≤◌, ◌++◌, ◌∷◌, [], drop, string_bytes, codes, if◌then◌else◌, IsErrOf, OnOk, Some, None, true};
ghost use Rattle.std.specs.Option.{option_copied};
ghost use Rattle.std.specs.Fmt.{decimal};
ghost use Rattle.std.specs.List.{list_all};
ghost use Rattle.hex.specs.Hex.{encode_lower};
ghost use Rattle.gw_site.specs.Failures.{Rose};
ghost use Rattle.gw_site.specs.declared.turn.Turn.TheVariants.{HeardTill, HeardPt, SentTill, SentPt, Wrote, Crash};
ghost use Rattle.gw_script.specs.LogText.{is_space_or_visible, is_printable_frame, till_bytes_text, taken, log_text, turn_text};
ghost use Rattle.gw_run.specs.LogWritten.{Adds, LogWritten};

use gw_site::{Failed, SharedBytes, Sink, Turn};
use sale_frame::framed_payload;
use std::alloc::{AllocError, Global};
use std::str;

/// As many bytes of lines are written at once, or more: a write of each line would be a call of the system for each.
const CHUNK: usize = 65_536;

/// Why a log was not written whole.
#[derive(Clone, Copy, Debug, PartialEq, Eq)]
pub enum Unwritten {
    Memory,
    /// The sink failed.
    Sink,
}

impl From<AllocError> for Unwritten {
    ghost use Rattle.gw_run.specs.declared.text.Unwritten.TheVariants.{Memory};

    ghost from_gives = { λ _ unwritten. unwritten ≡ Memory };

    fn from(_error: AllocError) -> Unwritten {
        Unwritten::Memory
    }
}

impl From<Failed> for Unwritten {
    ghost use Rattle.gw_run.specs.declared.text.Unwritten.TheVariants.{Sink};

    ghost from_gives = { λ _ unwritten. unwritten ≡ Sink };

    fn from(_failed: Failed) -> Unwritten {
        Unwritten::Sink
    }
}

fn is_space_or_visible(byte: u8) -> bool
    ensures { result ≡ is_space_or_visible byte }
{
    (b' '..=b'~').contains(&byte)
}

/// Whether each byte is a space or visible ASCII.
///
/// Each is looked at, also after one that isn't: without an early end many are looked at in one step.
fn are_printable(bytes: &[u8]) -> bool
    ensures { result ≡ list_all is_space_or_visible bytes.now }
{
    let mut printable = true;
    for byte in bytes {
        printable &= is_space_or_visible(*byte);
    }
    printable
}

/// The message of one whole frame, where it is printable ASCII.
fn printable_message(bytes: &[u8]) -> Option<&str>
    ensures { option_copied result ≡ (if is_printable_frame bytes.now then Some (drop 4 bytes.now) else None) }
{
    let message = framed_payload(bytes)?;
    if are_printable(message) {
        Some(printable_str(message))
    } else {
        None
    }
}

/// Printable bytes as text.
fn printable_str(bytes: &[u8]) -> &str
    requires { list_all is_space_or_visible bytes.now ≡ true }
    ensures { result.now ≡ bytes.now }
{
    // They are ASCII, so they are text, and nothing has to be tested.
    unsafe { str::from_utf8_unchecked(bytes) }
}

/// Appends a text and a number.
fn push_number(lines: &mut String, before: &str, number: u64) -> Result<(), AllocError>
    ensures { OnOk result (string_bytes lines.new ≡ string_bytes lines.old ++ (before.now ++ decimal number)) }
{
    write!(lines, "{before}{number}")
}

/// Appends a number between two texts.
fn push_number_between(
    lines: &mut String,
    before: &str,
    number: u64,
    after: &str,
) -> Result<(), AllocError>
    ensures { OnOk result (string_bytes lines.new ≡ string_bytes lines.old ++ (before.now ++ (decimal number ++ after.now))) }
{
    write!(lines, "{before}{number}{after}")
}

/// Appends bytes in lower-case hexadecimal.
fn push_hex(alloc: Global, lines: &mut String, bytes: &[u8]) -> Result<(), AllocError>
    ensures { OnOk result (string_bytes lines.new ≡ string_bytes lines.old ++ encode_lower bytes.now) }
{
    let text = hex::encode(alloc, bytes)?;
    lines.push_str(text.as_str())
}

/// Appends bytes of a till.
fn push_till_bytes(alloc: Global, lines: &mut String, bytes: &[u8]) -> Result<(), AllocError>
    ensures { OnOk result (string_bytes lines.new ≡ string_bytes lines.old ++ till_bytes_text bytes.now) }
{
    match printable_message(bytes) {
        Some(message) => write!(lines, "'{message}"),
        None => push_hex(alloc, lines, bytes),
    }
}

/// Appends the bytes that a failed send took.
fn push_taken(alloc: Global, lines: &mut String, bytes: &[u8]) -> Result<(), AllocError>
    ensures { OnOk result (string_bytes lines.new ≡ string_bytes lines.old ++ taken bytes.now) }
{
    if bytes.is_empty() {
        lines.push_str("-")
    } else {
        push_hex(alloc, lines, bytes)
    }
}

/// Appends the bytes that a failed send took, and that it failed.
fn push_failed(alloc: Global, lines: &mut String, bytes: &[u8]) -> Result<(), AllocError>
    ensures { OnOk result (string_bytes lines.new ≡ string_bytes lines.old ++ (taken bytes.now ++ codes " failed")) }
{
    push_taken(alloc, lines, bytes)?;
    lines.push_str(" failed")
}

/// Appends the line of bytes that come from a till, without its end.
fn push_heard_till(
    alloc: Global,
    lines: &mut String,
    till: u64,
    bytes: &SharedBytes,
) -> Result<(), AllocError>
    ensures { OnOk result (string_bytes lines.new ≡ string_bytes lines.old ++ turn_text (HeardTill till bytes.now)) }
{
    write!(lines, "till {till} in ")?;
    push_till_bytes(alloc, lines, bytes.as_slice())
}

/// Appends the line of bytes that come from a terminal, without its end.
fn push_heard_pt(
    alloc: Global,
    lines: &mut String,
    pt: u16,
    bytes: &SharedBytes,
) -> Result<(), AllocError>
    ensures { OnOk result (string_bytes lines.new ≡ string_bytes lines.old ++ turn_text (HeardPt pt bytes.now)) }
{
    write!(lines, "pt {pt} in ")?;
    push_hex(alloc, lines, bytes.as_slice())
}

/// Appends the line of a send to a till, without its end.
fn push_sent_till(
    alloc: Global,
    lines: &mut String,
    till: u64,
    bytes: &SharedBytes,
    ok: bool,
) -> Result<(), AllocError>
    ensures { OnOk result (string_bytes lines.new ≡ string_bytes lines.old ++ turn_text (SentTill till bytes.now ok)) }
{
    write!(lines, "till {till} out ")?;
    if ok {
        push_till_bytes(alloc, lines, bytes.as_slice())
    } else {
        push_failed(alloc, lines, bytes.as_slice())
    }
}

/// Appends the line of a send to a terminal, without its end.
fn push_sent_pt(
    alloc: Global,
    lines: &mut String,
    pt: u16,
    bytes: &SharedBytes,
    ok: bool,
) -> Result<(), AllocError>
    ensures { OnOk result (string_bytes lines.new ≡ string_bytes lines.old ++ turn_text (SentPt pt bytes.now ok)) }
{
    write!(lines, "pt {pt} out ")?;
    if ok {
        push_hex(alloc, lines, bytes.as_slice())
    } else {
        push_failed(alloc, lines, bytes.as_slice())
    }
}

/// Appends the line of a write to the disk, without its end.
fn push_wrote(
    alloc: Global,
    lines: &mut String,
    offset: u64,
    bytes: &SharedBytes,
) -> Result<(), AllocError>
    ensures { OnOk result (string_bytes lines.new ≡ string_bytes lines.old ++ turn_text (Wrote offset bytes.now)) }
{
    write!(lines, "wrote {offset} ")?;
    push_hex(alloc, lines, bytes.as_slice())
}

/// Appends the line of a power failure, without its end.
fn push_crash(lines: &mut String, file: &SharedBytes) -> Result<(), AllocError>
    ensures { OnOk result (string_bytes lines.new ≡ string_bytes lines.old ++ turn_text (Crash file.now)) }
{
    let length = file.as_slice().len();
    write!(lines, "power {length}")
}

/// Appends the line of a turn, without its end.
fn push_turn(alloc: Global, lines: &mut String, turn: &Turn) -> Result<(), AllocError>
    ensures { OnOk result (string_bytes lines.new ≡ string_bytes lines.old ++ turn_text turn.now) }
{
    match turn {
        Turn::Start(_) => lines.push_str("start"),
        Turn::OpenFailed => lines.push_str("open failed"),
        Turn::Polled { now } => write!(lines, "at {now}"),
        Turn::Opened { till } => push_number(lines, "open ", *till),
        Turn::HeardTill { till, bytes } => push_heard_till(alloc, lines, *till, bytes),
        Turn::Closed { till } => push_number(lines, "close ", *till),
        Turn::HeardPt { pt, bytes } => push_heard_pt(alloc, lines, *pt, bytes),
        Turn::Lost { pt } => push_number(lines, "lost ", u64::from(*pt)),
        Turn::Stopped => lines.push_str("stop"),
        Turn::Linked { pt } => push_number(lines, "link ", u64::from(*pt)),
        Turn::LinkFailed { pt } => push_number_between(lines, "link ", u64::from(*pt), " failed"),
        Turn::SentTill { till, bytes, ok } => push_sent_till(alloc, lines, *till, bytes, *ok),
        Turn::SentPt { pt, bytes, ok } => push_sent_pt(alloc, lines, *pt, bytes, *ok),
        Turn::CutTill { till } => push_number_between(lines, "till ", *till, " cut"),
        Turn::CutPt { pt } => push_number_between(lines, "pt ", u64::from(*pt), " cut"),
        Turn::Wrote { pos, bytes } => push_wrote(alloc, lines, *pos, bytes),
        Turn::Synced => lines.push_str("synced"),
        Turn::DiskFailed => lines.push_str("disk failed"),
        Turn::Crash { file } => push_crash(lines, file),
    }
}

/// Appends the line of a turn.
fn push_line(alloc: Global, lines: &mut String, turn: &Turn) -> Result<(), AllocError>
    ensures { OnOk result (string_bytes lines.new ≡ string_bytes lines.old ++ log_text (turn.now ∷ [])) }
{
    push_turn(alloc, lines, turn)?;
    lines.push('\n')
}

/// Writes the text of a log, a line for each turn.
///
/// Where memory is refused, the lines that were written are whole; where the sink fails, the last one may be incomplete.
pub fn write_log<O: Sink>(alloc: Global, log: &[Turn], out: &mut O) -> Result<(), Unwritten>
    ensures written { Adds (O.written out.old) (O.written out.new) (LogWritten log.now result) }
    ensures sink { IsErrOf result Unwritten.Sink → Rose (O.faults out.old) (O.faults out.new) }
    ensures later { O.faults out.old ≤ O.faults out.new }
{
    let mut lines = String::new(alloc);
    for turn in log {
        push_line(alloc, &mut lines, turn)?;
        if lines.len() >= CHUNK {
            out.write(lines.as_bytes())?;
            lines.clear();
        }
    }
    out.write(lines.as_bytes())?;
    Ok(())
}
