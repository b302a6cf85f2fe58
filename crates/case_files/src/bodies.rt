//! Bodies of records by their fields.
//!
//! A field is an offset and bytes in hexadecimal as `212=000000001099`, or an offset and a text as `2:Till-1`, which its length
//! precedes; a later field covers an earlier one, and the rest are zeros. A line `let NAME FIELDS` gives fields a name; `%` in them
//! stands for the values that come after the name.
use anyhow::Context;
use std::alloc::{AllocError, Global};

/// The fields of a name that a line before gives it.
pub fn form_of<'a>(before: &'a str, name: &str) -> Option<&'a str> {
    for line in before.split('\n') {
        if let Some(("let", rest)) = line.split_once(' ') {
            if let Some((own, form)) = rest.split_once(' ') {
                if own == name {
                    return Some(form);
                }
            }
        }
    }
    None
}

/// Appends a form with these values.
fn push_filled(fields: &mut String, form: &str, values: &str) -> Result<(), AllocError> {
    let mut values = values.split(' ');
    for (number, part) in form.split('%').enumerate() {
        if number > 0 {
            if let Some(value) = values.next() {
                fields.push_str(value)?;
            }
        }
        fields.push_str(part)?;
    }
    Ok(())
}

/// Puts bytes at their offset in a body.
fn put(body: &mut [u8; 255], offset: usize, bytes: &[u8]) {
    for (cell, byte) in body.iter_mut().skip(offset).zip(bytes.iter()) {
        *cell = *byte;
    }
}

/// Puts a text at its offset in a body, which its length precedes.
fn put_text(body: &mut [u8; 255], offset: usize, text: &str) -> anyhow::Result<()> {
    put(body, offset, &[u8::try_from(text.len())?]);
    put(body, offset.saturating_add(1), text.as_bytes());
    Ok(())
}

/// Puts bytes in hexadecimal at their offset in a body.
fn put_digits(
    alloc: Global,
    body: &mut [u8; 255],
    offset: usize,
    digits: &str,
) -> anyhow::Result<()> {
    let bytes = hex::decode(alloc, digits)?;
    put(body, offset, bytes.as_slice());
    Ok(())
}

/// Puts a field in a body.
fn put_field(alloc: Global, body: &mut [u8; 255], field: &str) -> anyhow::Result<()> {
    match field.split_once('=') {
        Some((offset, digits)) => put_digits(alloc, body, offset.parse()?, digits),
        None => {
            let (offset, text) = field.split_once(':').context("no field")?;
            put_text(body, offset.parse()?, text)
        }
    }
}

/// Puts the fields of a text in a body.
fn put_fields(alloc: Global, body: &mut [u8; 255], fields: &str) -> anyhow::Result<()> {
    for field in fields.split_whitespace() {
        put_field(alloc, body, field)?;
    }
    Ok(())
}

/// The body of a record: a name and its values, or fields, and after ` with ` other fields.
pub fn body_of(alloc: Global, before: &str, words: &str) -> anyhow::Result<[u8; 255]> {
    let (words, others) = words.split_once(" with ").unwrap_or((words, ""));
    let (name, values) = words.split_once(' ').unwrap_or((words, ""));
    let mut fields = String::new(alloc);
    push_filled(
        &mut fields,
        form_of(before, name).context("no name")?,
        values,
    )?;
    let mut body = [0; 255];
    put_fields(alloc, &mut body, fields.as_str())?;
    put_fields(alloc, &mut body, others)?;
    Ok(body)
}
