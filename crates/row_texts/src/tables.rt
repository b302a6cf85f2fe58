//! Short lines of cases, written out as the lines of a script and of its log. `script_tests/data/beginnings.txt` says at its head what each means.
//!
//! A line that begins with `> ` is one of the log, in which each line that polls has its moment and its event besides. The others are the script's; one
//! after `~ ` brings no event. `payment_lines` has the lines of payments, reversals, reconciliations and Aborts, and `display_lines` those of
//! displays and device requests.
use crate::display_lines::push_display;
use crate::payment_lines::{push_asked, push_paid};
use std::alloc::{AllocError, Global};
use std::test::Fail;

/// A request: its category, this again, and its body.
const REQUEST: &str =
    "{\"SaleToPOIRequest\":{\"MessageHeader\":{\"ProtocolVersion\":\"3.0\",\"MessageClass\":\"Service\",\"MessageCategory\":\"%\",\
    \"MessageType\":\"Request\",\"ServiceID\":\"1\",\"SaleID\":\"S1\",\"POIID\":\"T1\"},\"%Request\":%}}\n";

/// The line of a reply: its class, its category, this again, and its body.
const REPLY: &str =
    "till 1 out '{\"SaleToPOIResponse\":{\"MessageHeader\":{\"ProtocolVersion\":\"3.0\",\"MessageClass\":\"%\",\"MessageCategory\":\"%\",\
    \"MessageType\":\"Response\",\"ServiceID\":\"1\",\"SaleID\":\"S1\",\"POIID\":\"T1\"},\"%Response\":%}}\n";

/// The line of the reply to a Diagnosis: the state.
const STATE: &str =
    "till 1 out '{\"SaleToPOIResponse\":{\"MessageHeader\":{\"ProtocolVersion\":\"3.0\",\"MessageClass\":\"Service\",\
    \"MessageCategory\":\"Diagnosis\",\"MessageType\":\"Response\",\"ServiceID\":\"1\",\"SaleID\":\"S1\",\"POIID\":\"T1\"},\
    \"DiagnosisResponse\":{\"Response\":{\"Result\":\"Success\"},\"POIStatus\":{\"GlobalStatus\":\"%\"}}}}\n";

/// The line of the event that rejects a message: till, terminal and details.
const REJECT: &str =
    "till 1 out '{\"SaleToPOIRequest\":{\"MessageHeader\":{\"ProtocolVersion\":\"3.0\",\"MessageClass\":\"Event\",\
    \"MessageCategory\":\"Event\",\"MessageType\":\"Notification\",\"SaleID\":\"%\",\"POIID\":\"%\"},\
    \"EventNotification\":{\"TimeStamp\":\"1970-01-01T00:00:00Z\",\"EventToNotify\":\"Reject\",\"EventDetails\":\"%\"}}}\n";

/// A line up to its first space, and what comes after that.
pub fn halves(line: &str) -> (&str, &str) {
    line.split_once(' ').unwrap_or((line, ""))
}

/// Appends a form, in which these texts take the places of its `%`.
pub fn push_form(text: &mut String, form: &str, values: &[&str]) -> Result<(), AllocError> {
    let mut parts = form.split('%');
    text.push_str(parts.next().unwrap_or(""))?;
    for (number, part) in parts.enumerate() {
        text.push_str(values.get(number).copied().unwrap_or(""))?;
        text.push_str(part)?;
    }
    Ok(())
}

/// Appends a text so many times.
pub fn push_times(text: &mut String, count: usize, part: &str) -> Result<(), AllocError> {
    for _ in 0..count {
        text.push_str(part)?;
    }
    Ok(())
}

/// Appends a request, of which the category and the body are given.
fn push_request(text: &mut String, request: &str) -> Result<(), AllocError> {
    let (category, body) = halves(request);
    push_form(text, REQUEST, &[category, category, body])
}

/// The till of a line that is a request.
fn asking_till(line: &str) -> Option<&str> {
    let (word, rest) = halves(line);
    let (first, _) = halves(rest);
    match word {
        "ask" => Some("1"),
        "pay" | "reverse" | "reverse_amount" | "reconcile" | "abort" | "status" | "display" => {
            Some(first)
        }
        _ => None,
    }
}

/// Appends the message of a line that is a request.
fn push_message(text: &mut String, line: &str) -> Result<(), AllocError> {
    let (word, rest) = halves(line);
    let (_, words) = halves(rest);
    match word {
        "ask" => push_request(text, rest),
        "display" => push_display(text, words),
        _ => push_asked(text, word, words),
    }
}

/// Appends a line of a row to the script.
pub fn push_played(script: &mut String, line: &str) -> Result<(), AllocError> {
    match asking_till(line) {
        Some(till) => {
            push_form(script, "say % ", &[till])?;
            push_message(script, line)
        }
        None => push_form(script, "%\n", &[line.strip_prefix("~ ").unwrap_or(line)]),
    }
}

/// Appends what the log has of the event of a line, where it polls.
fn push_event(log: &mut String, now: &str, line: &str) -> Result<(), AllocError> {
    if let Some(till) = asking_till(line) {
        push_form(log, "at %\ntill % in '", &[now, till])?;
        return push_message(log, line);
    }
    let (word, rest) = halves(line);
    let (number, bytes) = halves(rest);
    match word {
        "tick" => push_form(log, "at %\n", &[now]),
        "open" | "close" | "lost" => push_form(log, "at %\n%\n", &[now, line]),
        "till" | "pt" => push_form(log, "at %\n% % in %\n", &[now, word, number, bytes]),
        "say" => push_form(log, "at %\ntill % in '%\n", &[now, number, bytes]),
        _ => Ok(()),
    }
}

/// Appends a line of the log.
fn push_logged(alloc: Global, log: &mut String, line: &str) -> Result<(), Fail> {
    let (word, rest) = halves(line);
    let (first, others) = halves(rest);
    let (second, last) = halves(others);
    match word {
        "reply" => push_form(log, REPLY, &[first, second, second, last])?,
        "reject" => push_form(log, REJECT, &[first, second, last])?,
        "state" => push_form(log, STATE, &[rest])?,
        "start" => log.push_str("start\nsynced\nwrote 0 00\nsynced\n")?,
        "restart" => log.push_str("start\nsynced\n")?,
        _ => push_paid(alloc, log, line)?,
    }
    Ok(())
}

/// Appends the frame of the request that this line is, in hexadecimal.
fn push_frame(alloc: Global, text: &mut String, line: &str) -> Result<(), Fail> {
    let mut message = String::new(alloc);
    push_message(&mut message, line)?;
    let payload = message.trim_end();
    write!(text, "{:08x}", payload.len())?;
    text.push_str(&hex::encode(alloc, payload.as_bytes())?)?;
    Ok(())
}

/// The line of the script that brings requests in one chunk: the till, and the lines that they are.
fn chunk_line(alloc: Global, chunk: &str) -> Result<String, Fail> {
    let (till, lines) = halves(chunk);
    let mut played = String::new(alloc);
    push_form(&mut played, "till % ", &[till])?;
    for line in lines.split(" & ") {
        push_frame(alloc, &mut played, line)?;
    }
    Ok(played)
}

/// Appends a line of a row to the script or to the log; one that sets the moment changes it.
fn push_line(
    alloc: Global,
    script: &mut String,
    log: &mut String,
    now: &mut String,
    line: &str,
) -> Result<(), Fail> {
    if let Some(logged) = line.strip_prefix("> ") {
        return push_logged(alloc, log, logged);
    }
    if let Some(moment) = line.strip_prefix("at ") {
        now.clear();
        now.push_str(moment)?;
    }
    if let Some(chunk) = line.strip_prefix("chunk ") {
        let played = chunk_line(alloc, chunk)?;
        push_played(script, &played)?;
        push_event(log, now, &played)?;
        return Ok(());
    }
    let played = if line == "diagnosis" {
        "ask Diagnosis {}"
    } else {
        line
    };
    push_played(script, played)?;
    push_event(log, now, played)?;
    Ok(())
}

/// Appends the lines of a row to the script and to the log, from this moment on, and leaves the moment at its end.
pub fn push_row(
    alloc: Global,
    script: &mut String,
    log: &mut String,
    now: &mut String,
    row: &str,
) -> Result<(), Fail> {
    for line in row.split('\n') {
        push_line(alloc, script, log, now, line)?;
    }
    Ok(())
}
