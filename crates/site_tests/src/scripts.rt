//! Scripts of cases, and how they are read.
use crate::turns::push_hex;
use anyhow::Context;
use case_files::{bytes_of, done};
use gw_base::{Bytes, Currency, Pt, Setup};
use sim_script::ScriptFault;
use sim_site::SimSite;
use std::alloc::{AllocError, Global};

/// Appends a text so many times.
fn push_times(out: &mut String, count: u32, text: &str) -> Result<(), AllocError> {
    for _ in 0..count {
        out.push_str(text)?;
    }
    Ok(())
}

/// Appends a text N times, as `N*TEXT` says, and the rest.
fn push_times_and_rest(out: &mut String, repeated: &str, rest: &str) -> anyhow::Result<()> {
    let (count, text) = repeated.split_once('*').context("no count")?;
    push_times(out, count.parse::<u32>()?, text)?;
    done(out.push_str(rest))
}

/// Appends a text, in which `<<N*TEXT>>` is the text N times.
fn push_repeated(out: &mut String, text: &str) -> anyhow::Result<()> {
    for part in text.split("<<") {
        match part.split_once(">>") {
            Some((repeated, rest)) => push_times_and_rest(out, repeated, rest)?,
            None => out.push_str(part)?,
        }
    }
    Ok(())
}

/// A text in which the marks of line ends, spaces and carriage returns are those.
fn meant(alloc: Global, text: &str) -> Result<String, AllocError> {
    let lines = text.replace(alloc, ';', "\n")?;
    let spaces = lines.as_str().replace(alloc, '␣', " ")?;
    spaces.as_str().replace(alloc, '␍', "\r")
}

/// The text of a script or a file: `;` ends a line, `␣` is a space, `␍` a CR, and `<<N*TEXT>>` a text N times.
pub fn text_of(alloc: Global, words: &str) -> anyhow::Result<String> {
    let mut text = String::new(alloc);
    push_repeated(&mut text, words)?;
    Ok(meant(alloc, text.as_str())?)
}

/// Appends what a setup has of a terminal.
fn push_terminal(out: &mut String, pt: &Pt) -> Result<(), AllocError> {
    let currency = if pt.currency == Currency::Eur {
        "EUR"
    } else {
        "another"
    };
    write!(out, ", {} {currency} ", pt.poi)?;
    push_hex(out, &pt.password)?;
    write!(
        out,
        " {} {} {} {}",
        pt.config, pt.none, pt.answer, pt.command
    )
}

/// Appends the name and the numbers of a setup, and its terminals.
fn push_setup(out: &mut String, setup: &Setup) -> Result<(), AllocError> {
    let Setup {
        name,
        line,
        wait,
        slots,
        ..
    } = setup;
    write!(out, "> {name} {line} {wait} {slots}")?;
    for pt in setup.terminals.as_slice() {
        push_terminal(out, pt)?;
    }
    out.push_str("\n")
}

/// Appends the setup with which the next run of a site starts.
pub fn push_setup_of(alloc: Global, out: &mut String, site: &SimSite) -> Result<(), AllocError> {
    let setup = site.setup(alloc)?;
    push_setup(out, &setup)
}

/// Why a script isn't read.
fn fault_of(alloc: Global, script: &Bytes) -> Option<ScriptFault> {
    match SimSite::from_script(alloc, script) {
        Ok(_) => None,
        Err(fault) => Some(fault),
    }
}

/// Appends whether a script is read, or why it isn't.
pub fn push_reading(alloc: Global, out: &mut String, script: &[u8]) -> Result<(), AllocError> {
    match fault_of(alloc, &Bytes::copied(alloc, script)?) {
        None => out.push_str("> read\n"),
        Some(ScriptFault::Long) => out.push_str("> long\n"),
        Some(ScriptFault::Line { line }) => write!(out, "> line {line}\n"),
        Some(ScriptFault::Memory) => out.push_str("> no memory\n"),
    }
}

/// Appends whether the script of words is read, or why it isn't.
pub fn push_read(alloc: Global, out: &mut String, words: &str) -> anyhow::Result<()> {
    let script = text_of(alloc, words)?;
    done(push_reading(alloc, out, script.as_bytes()))
}

/// A script of so many terminals.
fn terminals(alloc: Global, count: u32) -> Result<String, AllocError> {
    let mut script = String::new(alloc);
    for number in 1..=count {
        write!(script, "terminal T{number} EUR 123456 0 0\n")?;
    }
    Ok(script)
}

/// Appends whether a script of so many terminals is read.
pub fn push_terminals(alloc: Global, out: &mut String, words: &str) -> anyhow::Result<()> {
    let script = terminals(alloc, words.parse::<u32>()?)?;
    done(push_reading(alloc, out, script.as_bytes()))
}

/// Appends whether the script of bytes is read, or why it isn't.
pub fn push_read_bytes(alloc: Global, out: &mut String, words: &str) -> anyhow::Result<()> {
    let script = bytes_of(alloc, words)?;
    done(push_reading(alloc, out, script.as_slice()))
}
