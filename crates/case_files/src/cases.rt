//! Files of cases: their lines, and what is another than they say.
use std::alloc::{AllocError, Global};

/// What gives the results of the questions of cases.
pub trait Questions {
    /// Appends the result of a question, each line after `> `. What comes before has the questions of the same case.
    fn push_result(alloc: Global, out: &mut String, before: &str, line: &str) -> anyhow::Result<()>;
}

/// What appended a result, as a question returns it.
pub fn done(appended: Result<(), AllocError>) -> anyhow::Result<()> {
    Ok(appended?)
}

/// The first line of a part of a file, and the others.
fn heading(part: &str) -> (&str, &str) {
    part.split_once('\n').unwrap_or((part, ""))
}

/// Whether a line says nothing.
fn is_silent(line: &str) -> bool {
    line.is_empty() || line.starts_with('#')
}

/// Appends the lines that say something.
fn push_said(lines: &mut String, part: &str) -> Result<(), AllocError> {
    for line in part.split('\n') {
        if !is_silent(line) {
            write!(lines, "{line}\n")?;
        }
    }
    Ok(())
}

/// Appends the lines of the beginning of this name.
fn push_beginning(lines: &mut String, file: &str, name: &str) -> Result<(), AllocError> {
    let (head, _groups) = file.split_once("\n== ").unwrap_or((file, ""));
    for part in head.split("\n+ ") {
        let (own, rest) = heading(part);
        if own == name {
            push_said(lines, rest)?;
        }
    }
    Ok(())
}

/// Appends the lines of a part of a file, and in place of `from NAME` those of this beginning.
fn push_lines(lines: &mut String, file: &str, part: &str) -> Result<(), AllocError> {
    for line in part.split('\n') {
        match line.strip_prefix("from ") {
            Some(name) => push_beginning(lines, file, name)?,
            None => push_said(lines, line)?,
        }
    }
    Ok(())
}

/// Appends a question and its result. What is given already has the questions before it.
fn push_asked<Q: Questions>(
    alloc: Global,
    given: &mut String,
    line: &str,
) -> Result<(), AllocError> {
    let mut result = String::new(alloc);
    let asked = Q::push_result(alloc, &mut result, given.as_str(), line);
    write!(given, "{line}\n{result}")?;
    match asked {
        Ok(()) => Ok(()),
        Err(error) => write!(given, "> error: {error}\n"),
    }
}

/// Appends what a case gives: each of its questions, and its result.
fn push_given<Q: Questions>(
    alloc: Global,
    given: &mut String,
    lines: &str,
) -> Result<(), AllocError> {
    for line in lines.split('\n') {
        if !line.is_empty() && !line.starts_with("> ") {
            push_asked::<Q>(alloc, given, line)?;
        }
    }
    Ok(())
}

/// Appends the report of a case: `as expected`, or the first line that is another.
fn push_difference(out: &mut String, given: &str, wanted: &str) -> Result<(), AllocError> {
    let mut lines = given.split('\n');
    for line in wanted.split('\n') {
        let other = lines.next().unwrap_or("nothing");
        if other != line {
            return write!(out, "{other} in place of {line}\n");
        }
    }
    match lines.next() {
        None => out.push_str("as expected\n"),
        Some(line) => write!(out, "{line} besides\n"),
    }
}

/// Appends the report of a case, of which these are the lines.
fn push_case<Q: Questions>(alloc: Global, out: &mut String, lines: &str) -> Result<(), AllocError> {
    let mut given = String::new(alloc);
    push_given::<Q>(alloc, &mut given, lines)?;
    push_difference(out, given.as_str(), lines)
}

/// Appends a line for each case of a group.
fn push_group<Q: Questions>(
    alloc: Global,
    out: &mut String,
    file: &str,
    group: &str,
) -> Result<(), AllocError> {
    let mut parts = group.split("\n= ");
    let (name, shared) = heading(parts.next().unwrap_or(""));
    for part in parts {
        let (own, rest) = heading(part);
        let mut lines = String::new(alloc);
        push_lines(&mut lines, file, shared)?;
        push_lines(&mut lines, file, rest)?;
        write!(out, "{name}: {own}: ")?;
        push_case::<Q>(alloc, out, lines.as_str())?;
    }
    Ok(())
}

/// Appends a line for each case of a file.
pub fn push_report<Q: Questions>(
    alloc: Global,
    out: &mut String,
    file: &str,
) -> Result<(), AllocError> {
    let (_head, groups) = file.split_once("\n== ").unwrap_or((file, ""));
    for group in groups.split("\n== ") {
        push_group::<Q>(alloc, out, file, group)?;
    }
    Ok(())
}
