//! Texts in which values take the places of marks, and texts that are repeated.
use row_texts::push_times;
use std::alloc::{AllocError, Global};
use std::test::Fail;

/// A text in which this value takes the place of `%` and this number.
fn placed(alloc: Global, text: &str, number: u32, value: &str) -> Result<String, AllocError> {
    let place = format!(in alloc; "%{number}")?;
    text.replace(alloc, place.as_str(), value)
}

/// A text in which the first value takes the place of `%1`, the second that of `%2`, and so on.
pub(crate) fn filled(alloc: Global, text: &str, values: &str) -> Result<String, AllocError> {
    let mut filled = String::from_str(alloc, text)?;
    for (number, value) in (1..10).zip(values.split(" | ")) {
        filled = placed(alloc, &filled, number, value)?;
    }
    Ok(filled)
}

/// The values of a table as they are meant: their marks of spaces and of carriage returns are those.
pub(crate) fn meant(alloc: Global, values: &str) -> Result<String, AllocError> {
    let spaced = values.replace(alloc, '␣', " ")?;
    spaced.replace(alloc, '␍', "\r")
}

/// Appends a block of lines, in which this number takes the place of `%n`.
fn push_numbered(
    alloc: Global,
    text: &mut String,
    block: &str,
    number: u64,
) -> Result<(), AllocError> {
    let number = format!(in alloc; "{number}")?;
    text.push_str(&block.replace(alloc, "%n", &number)?)?;
    text.push('\n')
}

/// Appends a block of lines for each number of a range, `FIRST LAST`.
fn push_block(alloc: Global, text: &mut String, range: &str, block: &str) -> Result<(), Fail> {
    let (first, last) = range.split_once(' ').ok_or("no range of a block")?;
    for number in first.parse::<u64>()?..=last.parse::<u64>()? {
        push_numbered(alloc, text, block, number)?;
    }
    Ok(())
}

/// Appends what comes after `repeat `: a range, the block, and the lines after its `end`.
fn push_part(alloc: Global, text: &mut String, part: &str) -> Result<(), Fail> {
    let (range, rest) = part.split_once('\n').ok_or("no block after its range")?;
    let (block, after) = rest.split_once("\nend").ok_or("no end of a block")?;
    push_block(alloc, text, range, block)?;
    text.push_str(after)?;
    text.push('\n')?;
    Ok(())
}

/// A text, each of whose lines comes after a line's end, with its blocks written out: those between `repeat FIRST LAST` and `end`.
pub(crate) fn written_out(alloc: Global, text: &str) -> Result<String, Fail> {
    let mut parts = text.split("\nrepeat ");
    let mut whole = String::from_str(alloc, parts.next().unwrap_or(""))?;
    whole.push('\n')?;
    for part in parts {
        push_part(alloc, &mut whole, part)?;
    }
    Ok(whole)
}

/// Appends what comes after `<<`: a text N times, as `N*TEXT>>` says, and the rest of the line.
fn push_times_and_rest(text: &mut String, part: &str) -> Result<(), Fail> {
    let (repeated, rest) = part.split_once(">>").ok_or("no end of a repeated text")?;
    let (count, once) = repeated
        .split_once('*')
        .ok_or("no count of a repeated text")?;
    push_times(text, count.parse::<usize>()?, once)?;
    text.push_str(rest)?;
    Ok(())
}

/// Appends a line, in which each `<<N*TEXT>>` is that text N times.
pub(crate) fn push_repeated(text: &mut String, line: &str) -> Result<(), Fail> {
    let mut parts = line.split("<<");
    text.push_str(parts.next().unwrap_or(""))?;
    for part in parts {
        push_times_and_rest(text, part)?;
    }
    Ok(())
}
