//! The turns of a log as lines: as the text of a log has them, but that all bytes are in hexadecimal.
use gw_site::Turn;
use std::alloc::AllocError;

/// Appends bytes in hexadecimal, a `-` where there are none.
pub fn push_hex(out: &mut String, bytes: &[u8]) -> Result<(), AllocError> {
    if bytes.is_empty() {
        return out.push_str("-");
    }
    for byte in bytes {
        write!(out, "{byte:02x}")?;
    }
    Ok(())
}

/// Appends what was heard or sent on a connection.
fn push_moved(
    out: &mut String,
    connection: &str,
    number: u64,
    direction: &str,
    bytes: &[u8],
) -> Result<(), AllocError> {
    write!(out, "{connection} {number} {direction} ")?;
    push_hex(out, bytes)
}

/// Appends what was sent on a connection.
fn push_sent(
    out: &mut String,
    connection: &str,
    number: u64,
    bytes: &[u8],
    ok: bool,
) -> Result<(), AllocError> {
    push_moved(out, connection, number, "out", bytes)?;
    out.push_str(if ok { "" } else { " failed" })
}

/// Appends a number and bytes after a word.
fn push_placed(out: &mut String, word: &str, number: u64, bytes: &[u8]) -> Result<(), AllocError> {
    write!(out, "{word} {number} ")?;
    push_hex(out, bytes)
}

/// Appends a turn that has bytes.
fn push_bytes_turn(out: &mut String, turn: &Turn) -> Result<(), AllocError> {
    match turn {
        Turn::HeardTill { till, bytes } => push_moved(out, "till", *till, "in", bytes.as_slice()),
        Turn::HeardPt { pt, bytes } => {
            push_moved(out, "pt", u64::from(*pt), "in", bytes.as_slice())
        }
        Turn::SentTill { till, bytes, ok } => push_sent(out, "till", *till, bytes.as_slice(), *ok),
        Turn::SentPt { pt, bytes, ok } => {
            push_sent(out, "pt", u64::from(*pt), bytes.as_slice(), *ok)
        }
        Turn::Wrote { pos, bytes } => push_placed(out, "wrote", *pos, bytes.as_slice()),
        Turn::Crash { file } => {
            push_placed(out, "power", file.as_slice().len() as u64, file.as_slice())
        }
        _ => out.push_str("?"),
    }
}

/// Appends a turn of a connection, or one that has bytes.
fn push_connection_turn(out: &mut String, turn: &Turn) -> Result<(), AllocError> {
    match turn {
        Turn::Opened { till } => write!(out, "open {till}"),
        Turn::Closed { till } => write!(out, "close {till}"),
        Turn::CutTill { till } => write!(out, "till {till} cut"),
        Turn::Linked { pt } => write!(out, "link {pt}"),
        Turn::LinkFailed { pt } => write!(out, "link {pt} failed"),
        Turn::Lost { pt } => write!(out, "lost {pt}"),
        Turn::CutPt { pt } => write!(out, "pt {pt} cut"),
        _ => push_bytes_turn(out, turn),
    }
}

fn push_turn(out: &mut String, turn: &Turn) -> Result<(), AllocError> {
    match turn {
        Turn::Start(_) => out.push_str("start"),
        Turn::OpenFailed => out.push_str("open failed"),
        Turn::Polled { now } => write!(out, "at {now}"),
        Turn::Stopped => out.push_str("stop"),
        Turn::Synced => out.push_str("synced"),
        Turn::DiskFailed => out.push_str("disk failed"),
        _ => push_connection_turn(out, turn),
    }
}

/// Appends a line for each turn of a log after so many.
pub fn push_turns(out: &mut String, turns: &[Turn], before: usize) -> Result<(), AllocError> {
    for turn in turns.iter().skip(before) {
        out.push_str("> ")?;
        push_turn(out, turn)?;
        out.push_str("\n")?;
    }
    Ok(())
}
