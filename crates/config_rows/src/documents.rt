//! Documents as texts, and the line that each of them gets.
//!
//! A form is a text with one `%`, which a value takes the place of. Rows of a table of documents are divided by an empty line: the
//! lines that are put into the form, and after `> ` the line that the document gets. A table of sizes has a line for each: a
//! number, and the line that the document gets.
use gw_config::{ConfigFault, read_setup};
use std::alloc::{AllocError, Global};
use std::process::Abort;
use std::test::Fail;

/// A form with this value.
pub(crate) fn filled(alloc: Global, form: &str, value: &str) -> Result<String, AllocError> {
    let (before, after) = form.split_once('%').unwrap_or((form, ""));
    let mut text = String::from_str(alloc, before)?;
    text.push_str(value)?;
    text.push_str(after)?;
    Ok(text)
}

/// A row up to a text, and what comes after that.
pub(crate) fn halves<'a>(row: &'a str, between: &str) -> (&'a str, &'a str) {
    row.split_once(between).unwrap_or((row, ""))
}

/// So many letters.
fn letters(alloc: Global, count: usize) -> Result<String, AllocError> {
    let mut text = String::new(alloc);
    for _ in 0..count {
        text.push('x')?;
    }
    Ok(text)
}

/// So many texts of this form, with the numbers from 0 on.
fn numbered(alloc: Global, form: &str, count: usize) -> Result<String, AllocError> {
    let mut text = String::new(alloc);
    for number in 0..count {
        let figures = number.to_string(alloc)?;
        let one = filled(alloc, form, figures.as_str())?;
        text.push_str(one.as_str())?;
    }
    Ok(text)
}

/// The line that a document gets: that of its fault, or `accepted`.
fn line_of(alloc: Global, document: &str) -> Result<String, AllocError> {
    match read_setup(alloc, document.as_bytes()) {
        Ok(_) => String::from_str(alloc, "accepted"),
        Err(fault) => String::from_utf8_lossy(alloc, fault.line(alloc)?.as_slice()),
    }
}

/// The form with this value is a document that gets the line.
fn check(
    rt: &impl Abort,
    alloc: Global,
    form: &str,
    value: &str,
    row: (&str, &str),
) -> Result<(), Fail> {
    let (name, want) = row;
    let document = filled(alloc, form, value)?;
    let line = line_of(alloc, document.as_str())?;
    assert_eq!(rt; line.as_str(), want, "of {name} in {form}");
    Ok(())
}

/// Checks each row of a table of documents.
pub(crate) fn check_rows(
    rt: &impl Abort,
    alloc: Global,
    form: &str,
    table: &str,
) -> Result<(), Fail> {
    for row in table.split("\n\n") {
        let (lines, want) = halves(row, "> ");
        check(rt, alloc, form, lines, (row, want))?;
    }
    Ok(())
}

/// Checks the form with so many letters, for each row of a table of sizes.
pub(crate) fn check_lengths(
    rt: &impl Abort,
    alloc: Global,
    form: &str,
    table: &str,
) -> Result<(), Fail> {
    for row in table.split('\n') {
        let (size, want) = halves(row, " ");
        let value = letters(alloc, size.parse::<usize>()?)?;
        check(rt, alloc, form, value.as_str(), (row, want))?;
    }
    Ok(())
}

/// Checks the form with as many letters as make a document of so many bytes, for each row of a table of sizes.
pub(crate) fn check_sizes(
    rt: &impl Abort,
    alloc: Global,
    form: &str,
    table: &str,
) -> Result<(), Fail> {
    for row in table.split('\n') {
        let (size, want) = halves(row, " ");
        // The form's `%` is no byte of the document.
        let count = size.parse::<usize>()?.saturating_add(1);
        let value = letters(alloc, count.saturating_sub(form.len()))?;
        check(rt, alloc, form, value.as_str(), (row, want))?;
    }
    Ok(())
}

/// Checks the form with so many texts of another form, which are numbered, for each row of a table of sizes.
pub(crate) fn check_numbers(
    rt: &impl Abort,
    alloc: Global,
    form: &str,
    one: &str,
    table: &str,
) -> Result<(), Fail> {
    for row in table.split('\n') {
        let (size, want) = halves(row, " ");
        let value = numbered(alloc, one, size.parse::<usize>()?)?;
        check(rt, alloc, form, value.as_str(), (row, want))?;
    }
    Ok(())
}

/// The offset at which bytes are no TOML, where that is their fault.
fn offset_of(alloc: Global, document: &[u8]) -> Option<usize> {
    match read_setup(alloc, document) {
        Err(ConfigFault::NotToml { at }) => Some(at),
        _ => None,
    }
}

/// The bytes are no TOML at an offset within them.
pub(crate) fn check_no_toml(rt: &impl Abort, alloc: Global, document: &[u8]) {
    match offset_of(alloc, document) {
        Some(offset) => assert!(rt; offset <= document.len(), "{document:?}"),
        None => assert!(rt; false, "{document:?}"),
    }
}
