//! Dialogues with terminals: what each message of a terminal means in them.
//!
//! A message is a word: `ack`, `nack:83`, `note:07`, `line`, `block`, `status:6c` (with this result code, and trace number 123,
//! receipt number 17 and 10.99), `status=DIGITS` with these fields, `completion`, `abort`, `abort:6c`, or `other`.
ghost use Rattle.std.specs.Prelude.{◌≡◌, ◌≢◌, IfSome, IfOk, IsTrue};
ghost use Rattle.zvt_talk.specs.Talk.{talk_goes_on};

use anyhow::Context;
use arrayvec::ArrayVec;
use case_files::bytes_of;
use gw_base::Figures;
use std::alloc::{AllocError, Global};
use zvt_bmp::{Fields, read_fields};
use zvt_msg::{Command, PtMessage};
use zvt_talk::{Heard, Talk};

/// The moment at which each dialogue begins.
const START: i64 = 1_741_342_264;

/// The result code by which the terminal reports that it has no transaction.
const NONE: u8 = 0x83;

const PASSWORD: [u8; 3] = [0x12, 0x34, 0x56];

/// The fields of a status with this result code.
fn status(result_code: u8) -> PtMessage<'static> {
    PtMessage::Status(Fields {
        result: Some(result_code),
        amount: Some(1_099),
        trace: Some(123),
        receipt: Some(17),
        currency: None,
        tail: 16,
    })
}

/// The message of a word with a code.
fn message_with(word: &str, code: u8) -> Option<PtMessage<'static>> {
    match word {
        "nack" => Some(PtMessage::Nack(code)),
        "note" => Some(PtMessage::Intermediate(code)),
        "status" => Some(status(code)),
        "abort" => Some(PtMessage::Abort(Some(code))),
        _ => None,
    }
}

/// The message of a word without a code.
fn message_without(word: &str) -> Option<PtMessage<'static>> {
    match word {
        "ack" => Some(PtMessage::Ack),
        "line" => Some(PtMessage::Line(b"A")),
        "block" => Some(PtMessage::Block(b"")),
        "completion" => Some(PtMessage::Completion),
        "abort" => Some(PtMessage::Abort(None)),
        "other" => Some(PtMessage::Other),
        _ => None,
    }
}

/// The status with the fields of these digits.
fn status_of(alloc: Global, digits: &str) -> Option<PtMessage<'static>> {
    let bytes = bytes_of(alloc, digits).ok()?;
    let fields = read_fields(bytes.as_slice()).ok()?;
    Some(PtMessage::Status(fields))
}

/// The message of a word.
fn message_of(alloc: Global, word: &str) -> Option<PtMessage<'static>> {
    if let Some(digits) = word.strip_prefix("status=") {
        return status_of(alloc, digits);
    }
    match word.split_once(':') {
        Some((word, code)) => message_with(word, u8::from_str_radix(code, 16).ok()?),
        None => message_without(word),
    }
}

/// The command of a word.
fn command_of(word: &str) -> Option<Command>
    ensures { IfSome result (λ command. command ≢ Command.Stop) }
{
    match word {
        "register" => Some(Command::Register {
            password: PASSWORD,
            config: 0xBA,
            currency: 978,
        }),
        "end_of_day" => Some(Command::EndOfDay { password: PASSWORD }),
        "enquire" => Some(Command::Enquire { password: PASSWORD }),
        "pay" => Some(Command::Authorise {
            amount: 1_099,
            currency: 978,
        }),
        "reverse" => Some(Command::Reverse {
            password: PASSWORD,
            receipt: 17,
        }),
        "show" => Some(Command::Show {
            lines: ArrayVec::new(),
        }),
        _ => None,
    }
}

fn push_figures(out: &mut String, figures: &Figures) -> Result<(), AllocError> {
    let Figures {
        number,
        receipt,
        amount,
    } = figures;
    write!(out, " trace {number} receipt {receipt} amount {amount}")
}

fn push_trace(out: &mut String, trace: Option<u32>) -> Result<(), AllocError> {
    match trace {
        Some(trace) => write!(out, " trace {trace}"),
        None => Ok(()),
    }
}

/// Appends the terminal's last transaction.
fn push_last(
    out: &mut String,
    trace: u32,
    approved: Option<Figures>,
    result_code: u8,
) -> Result<(), AllocError> {
    write!(out, "last {trace} result {result_code:02x}")?;
    match &approved {
        Some(figures) => push_figures(out, figures),
        None => Ok(()),
    }
}

/// Appends what a message means: its word and what it has.
fn push_heard(out: &mut String, heard: &Heard) -> Result<(), AllocError> {
    match heard {
        Heard::Begun { stop: true } => out.push_str("begun, stop"),
        Heard::Begun { stop: false } => out.push_str("begun"),
        Heard::Note(code) => write!(out, "note {code:02x}"),
        Heard::Line => out.push_str("line"),
        Heard::Block => out.push_str("block"),
        Heard::Seen => out.push_str("seen"),
        Heard::Approved(figures) => {
            out.push_str("approved")?;
            push_figures(out, figures)
        }
        Heard::Done => out.push_str("done"),
        Heard::Told {
            number,
            approved,
            code,
        } => push_last(out, *number, *approved, *code),
        Heard::Declined { code, number } => {
            write!(out, "declined {code:02x}")?;
            push_trace(out, *number)
        }
        Heard::Unclear => out.push_str("unclear"),
        Heard::Stray => out.push_str("stray"),
    }
}

/// What the messages come to: the end of the dialogue, or what the last of them means.
fn end_of(command: &Command, messages: &[PtMessage<'_>]) -> Heard
    requires { command.now ≢ Command.Stop }
{
    let mut talk = Talk::start(command, NONE, 5, 90, START);
    let mut heard = Heard::Stray;
    for message in messages {
        heard = talk.take(message, START);
        if heard.is_end() {
            break;
        }
    }
    heard
}

/// The messages of some words.
fn messages_of(alloc: Global, words: &str) -> anyhow::Result<Vec<PtMessage<'static>>> {
    let mut messages = Vec::new(alloc);
    for word in words.split_whitespace() {
        messages.push(message_of(alloc, word).context("no message")?)?;
    }
    Ok(messages)
}

/// Appends what the messages come to in a dialogue that begins with the command of this word.
fn push_end(out: &mut String, word: &str, messages: &[PtMessage<'_>]) -> anyhow::Result<()> {
    let command = command_of(word).context("no command")?;
    push_heard(out, &end_of(&command, messages))?;
    Ok(())
}

/// As [`push_end`], as a line of a result, after the word.
fn push_end_line(out: &mut String, word: &str, messages: &[PtMessage<'_>]) -> anyhow::Result<()> {
    write!(out, "> {word}: ")?;
    push_end(out, word, messages)?;
    Ok(out.push_str("\n")?)
}

/// Appends what the messages come to in each dialogue, after its word.
pub fn push_each(alloc: Global, out: &mut String, words: &str) -> anyhow::Result<()> {
    let messages = messages_of(alloc, words)?;
    for word in [
        "register",
        "end_of_day",
        "enquire",
        "pay",
        "reverse",
        "show",
    ] {
        push_end_line(out, word, messages.as_slice())?;
    }
    Ok(())
}

/// Takes a message so many seconds after the start, and appends what it means. Whether the dialogue goes on.
fn push_taken(
    out: &mut String,
    talk: &mut Talk,
    message: &PtMessage<'_>,
    seconds: u8,
) -> Result<bool, AllocError>
    requires { IsTrue (talk_goes_on talk.old) }
    ensures { IfOk result (λ goes_on. talk_goes_on talk.new ≡ goes_on) }
{
    let heard = talk.take(message, START + i64::from(seconds));
    out.push_str("> ")?;
    push_heard(out, &heard)?;
    out.push_str("\n")?;
    Ok(!heard.is_end())
}

fn push_whether(out: &mut String, is: bool) -> Result<(), AllocError> {
    out.push_str(if is { "> yes\n" } else { "> no\n" })
}

/// Wishes a stop, and appends whether it is sent now.
fn push_stop(out: &mut String, talk: &mut Talk) -> Result<(), AllocError>
    ensures { talk_goes_on talk.new ≡ talk_goes_on talk.old }
{
    let sent = talk.abort();
    push_whether(out, sent)
}

/// Appends the result of a word about a dialogue itself.
fn push_about(out: &mut String, talk: &Talk, word: &str) -> anyhow::Result<()> {
    match word {
        "stopped" => push_whether(out, talk.aborted())?,
        "deadline" => write!(out, "> +{}\n", talk.deadline().saturating_sub(START))?,
        _ => anyhow::bail!("no step"),
    }
    Ok(())
}

/// Appends the result of a step of a dialogue, so many seconds after its start. Whether the dialogue goes on.
fn push_step(
    alloc: Global,
    out: &mut String,
    talk: &mut Talk,
    step: (&str, u8),
    goes_on: bool,
) -> anyhow::Result<bool>
    requires { talk_goes_on talk.old ≡ goes_on }
    ensures { IfOk result (λ still. talk_goes_on talk.new ≡ still) }
{
    let (word, seconds) = step;
    if word == "stop" {
        push_stop(out, talk)?;
        return Ok(goes_on);
    }
    match message_of(alloc, word) {
        Some(message) if goes_on => Ok(push_taken(out, talk, &message, seconds)?),
        _ => {
            push_about(out, talk, word)?;
            Ok(goes_on)
        }
    }
}

/// Appends a result for each step of a dialogue that begins with this command.
fn push_dialogue(
    alloc: Global,
    out: &mut String,
    command: &Command,
    steps: &str,
) -> anyhow::Result<()>
    requires { command.now ≢ Command.Stop }
{
    let mut talk = Talk::start(command, NONE, 5, 90, START);
    let mut goes_on = true;
    let mut seconds = 0;
    for step in steps.split_whitespace() {
        match step.strip_prefix("@") {
            Some(word) => seconds = word.parse::<u8>()?,
            None => goes_on = push_step(alloc, out, &mut talk, (step, seconds), goes_on)?,
        }
    }
    Ok(())
}

/// Appends a result for each step of a dialogue, of which the first word is its command. A step is a message of the terminal, the
/// seconds since the start from there on as `@4`, `stop` where a stop is wished (whether it is sent now), `stopped` (whether one was
/// sent), or `deadline`.
pub fn push_steps(alloc: Global, out: &mut String, words: &str) -> anyhow::Result<()> {
    let (word, steps) = words.split_once(' ').unwrap_or((words, ""));
    let command = command_of(word).context("no command")?;
    push_dialogue(alloc, out, &command, steps)
}
