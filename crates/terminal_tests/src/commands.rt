//! Commands to terminals, read and written.
use arrayvec::ArrayVec;
use case_files::{push_bytes, push_result_bytes};
use std::alloc::AllocError;
use zvt_apdu::Apdu;
use zvt_msg::{Command, Lines, law_commands, read_command, write_command};

fn push_shown(out: &mut String, lines: &Lines) -> Result<(), AllocError> {
    out.push_str("show")?;
    for line in lines.as_slice() {
        out.push_str(" ")?;
        push_bytes(out, line.as_slice())?;
    }
    Ok(())
}

fn push_password(out: &mut String, word: &str, password: &[u8; 3]) -> Result<(), AllocError> {
    write!(out, "{word} ")?;
    push_bytes(out, password)
}

/// Appends a command: its word and what it has.
fn push_command(out: &mut String, command: &Command) -> Result<(), AllocError> {
    match command {
        Command::Register {
            password,
            config,
            currency,
        } => {
            push_password(out, "register", password)?;
            write!(out, " config {config:02x} currency {currency}")
        }
        Command::Authorise { amount, currency } => {
            write!(out, "authorise {amount} currency {currency}")
        }
        Command::Enquire { password } => push_password(out, "enquire", password),
        Command::Reverse { password, receipt } => {
            push_password(out, "reverse", password)?;
            write!(out, " receipt {receipt}")
        }
        Command::EndOfDay { password } => push_password(out, "end_of_day", password),
        Command::Stop => out.push_str("stop"),
        Command::Show { lines } => push_shown(out, lines),
    }
}

/// Appends a command as a line of a result.
pub fn push_command_line(out: &mut String, command: &Command) -> Result<(), AllocError> {
    out.push_str("> ")?;
    push_command(out, command)?;
    out.push_str("\n")
}

/// The command of an APDU, and the bytes that it is written as.
fn read_and_written(apdu: &Apdu<'_>) -> Option<(Command, ArrayVec<u8, 512>)> {
    law_commands();
    let command = read_command(apdu)?;
    let mut out = ArrayVec::new();
    write_command(&command, &mut out);
    Some((command, out))
}

/// Appends the command of an APDU, and the bytes that it is written as, or `> none`.
pub fn push_read(out: &mut String, apdu: &Apdu<'_>) -> Result<(), AllocError> {
    match read_and_written(apdu) {
        Some((command, written)) => {
            push_command_line(out, &command)?;
            push_result_bytes(out, written.as_slice())
        }
        None => out.push_str("> none\n"),
    }
}
