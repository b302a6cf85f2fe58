//! JSON texts, read and written.
use anyhow::Context;
use case_files::{bytes_of, done, push_result_bytes};
use json_text::{Chars, Json, read, write, write_text};
use std::alloc::{AllocError, Global};
use std::str;

/// Appends to bytes what is written of what is read, or to the result the fault. Whether it is read.
fn push_again(
    alloc: Global,
    out: &mut String,
    again: &mut Vec<u8>,
    text: &[u8],
) -> Result<bool, AllocError> {
    match read(alloc, text) {
        Ok(tree) => {
            write(alloc, &tree, again)?;
            Ok(true)
        }
        Err(fault) => {
            write!(out, "> {fault}\n")?;
            Ok(false)
        }
    }
}

/// Appends what is written of what is read, or the fault.
pub fn push_text(alloc: Global, out: &mut String, text: &str) -> anyhow::Result<()> {
    let mut again = Vec::new(alloc);
    if push_again(alloc, out, &mut again, text.as_bytes())? {
        push_written(out, again.as_slice())?;
    }
    Ok(())
}

/// Appends the bytes that are written of what is read, or the fault.
pub fn push_bytes(alloc: Global, out: &mut String, text: &[u8]) -> Result<(), AllocError> {
    let mut again = Vec::new(alloc);
    if push_again(alloc, out, &mut again, text)? {
        push_result_bytes(out, again.as_slice())?;
    }
    Ok(())
}

/// Appends what a part of a tree is that is no number.
fn push_other_part(out: &mut String, part: &Json) -> Result<(), AllocError> {
    if let Some(is) = part.as_bool() {
        write!(out, "> {is}\n")
    } else if let Some(text) = part.as_str() {
        write!(out, "> text {}\n", text.as_str())
    } else if let Some(list) = part.as_list() {
        write!(out, "> list of {}\n", list.len())
    } else {
        out.push_str(if part.is_object() {
            "> object\n"
        } else {
            "> null\n"
        })
    }
}

/// Appends a number, as it is spelled.
fn push_number(out: &mut String, numeral: &[u8]) -> anyhow::Result<()> {
    let numeral = str::from_utf8(numeral)?;
    done(write!(out, "> number {numeral}\n"))
}

/// Appends what a part of a tree is.
fn push_part(out: &mut String, part: &Json) -> anyhow::Result<()> {
    match part.as_number() {
        Some(numeral) => push_number(out, numeral.as_bytes()),
        None => done(push_other_part(out, part)),
    }
}

/// The element at the place of this number.
fn element<'a>(list: &'a [Json], number: &str) -> Option<&'a Json> {
    list.get(number.parse::<usize>().ok()?)
}

/// The member of this name, or the element at this place.
fn inside<'a>(part: &'a Json, name: &str) -> Option<&'a Json> {
    match part.as_list() {
        Some(list) => element(list, name),
        None => part.get(name.as_bytes()),
    }
}

/// The part of a tree at these names.
fn part_at<'a>(tree: &'a Json, names: &str) -> Option<&'a Json> {
    let mut part = tree;
    for name in names.split('.') {
        part = inside(part, name)?;
    }
    Some(part)
}

/// Appends what the part of a tree at these names is, or `> none`.
fn push_part_at(out: &mut String, tree: &Json, names: &str) -> anyhow::Result<()> {
    match part_at(tree, names) {
        Some(part) => push_part(out, part),
        None => done(out.push_str("> none\n")),
    }
}

/// Appends what the part of a text at these names is, or `> none`.
pub fn push_member(alloc: Global, out: &mut String, words: &str) -> anyhow::Result<()> {
    let (names, text) = words.split_once(' ').context("no names")?;
    let tree = read(alloc, text.as_bytes())?;
    push_part_at(out, &tree, names)
}

fn chars_of(alloc: Global, text: &str) -> Result<Chars, AllocError> {
    let text = String::from_str(alloc, text)?;
    Ok(Chars::new(text))
}

/// Appends written bytes as a text.
fn push_written(out: &mut String, written: &[u8]) -> anyhow::Result<()> {
    let text = str::from_utf8(written)?;
    done(write!(out, "> {text}\n"))
}

/// Appends the JSON string of a text.
fn push_string_of(alloc: Global, out: &mut String, chars: &Chars) -> anyhow::Result<()> {
    let mut written = Vec::new(alloc);
    write_text(chars.as_bytes(), &mut written)?;
    push_written(out, written.as_slice())
}

/// Appends the JSON string of a text.
pub fn push_string(alloc: Global, out: &mut String, text: &[u8]) -> anyhow::Result<()> {
    let chars = chars_of(alloc, str::from_utf8(text)?)?;
    push_string_of(alloc, out, &chars)
}
