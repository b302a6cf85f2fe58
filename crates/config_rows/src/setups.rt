//! Setups as texts, with a line for each of their parts in the order of the format.
use crate::documents::{filled, halves};
use gw_base::{Currency, Ident, Pt, Setup};
use gw_config::read_setup;
use std::alloc::{AllocError, Global};
use std::process::Abort;
use std::test::Fail;

fn push_text(text: &mut String, key: &str, value: &str) -> Result<(), AllocError> {
    text.push_str(key)?;
    text.push_str(" ")?;
    text.push_str(value)?;
    text.push_str("\n")
}

fn push_ident(text: &mut String, key: &str, value: &Ident<40>) -> Result<(), AllocError> {
    write!(text, "{key} {value}\n")
}

fn push_number(text: &mut String, key: &str, value: u32) -> Result<(), AllocError> {
    write!(text, "{key} {value}\n")
}

fn push_currency(text: &mut String, value: Currency) -> Result<(), AllocError> {
    write!(text, "currency {value:?}\n")
}

fn push_password(text: &mut String, value: [u8; 3]) -> Result<(), AllocError> {
    let [first, second, third] = value;
    write!(text, "password {first:02x}{second:02x}{third:02x}\n")
}

fn push_terminal(text: &mut String, pt: &Pt) -> Result<(), AllocError> {
    push_ident(text, "poi", &pt.poi)?;
    push_text(text, "address", pt.address.as_str())?;
    push_currency(text, pt.currency)?;
    push_password(text, pt.password)?;
    push_number(text, "config", u32::from(pt.config))?;
    push_number(text, "none", u32::from(pt.none))?;
    push_number(text, "answer", pt.answer)?;
    push_number(text, "command", pt.command)
}

fn push_terminals(text: &mut String, pts: &[Pt]) -> Result<(), AllocError> {
    for pt in pts {
        push_terminal(text, pt)?;
    }
    Ok(())
}

fn push_setup(text: &mut String, setup: &Setup) -> Result<(), AllocError> {
    push_text(text, "listen", setup.listen.as_str())?;
    push_text(text, "journal", setup.journal.as_str())?;
    push_ident(text, "name", &setup.name)?;
    push_number(text, "line", u32::from(setup.line))?;
    push_number(text, "wait", setup.wait)?;
    push_number(text, "slots", setup.slots)?;
    push_terminals(text, setup.terminals.as_slice())
}

/// The setup that a document gives.
fn setup_of(alloc: Global, document: &str) -> Result<Setup, Fail> {
    match read_setup(alloc, document.as_bytes()) {
        Ok(setup) => Ok(setup),
        Err(fault) => Err(Fail::from(fault)),
    }
}

/// A document gives this setup.
pub(crate) fn check_setup(
    rt: &impl Abort,
    alloc: Global,
    document: &str,
    want: &str,
) -> Result<(), Fail> {
    let setup = setup_of(alloc, document)?;
    let mut text = String::new(alloc);
    push_setup(&mut text, &setup)?;
    assert_eq!(rt; text.as_str(), want, "of {document}");
    Ok(())
}

/// Each row has two words: the first makes a document of one form, and the second its setup of another.
pub(crate) fn check_setups(
    rt: &impl Abort,
    alloc: Global,
    form: &str,
    setup_form: &str,
    table: &str,
) -> Result<(), Fail> {
    for row in table.split('\n') {
        let (value, word) = halves(row, " ");
        let document = filled(alloc, form, value)?;
        let want = filled(alloc, setup_form, word)?;
        check_setup(rt, alloc, document.as_str(), want.as_str())?;
    }
    Ok(())
}
