//! Scripts that are replayed by the top call, and what they give compared with what is wanted.
use gw_base::{Bytes, Text};
use gw_run::top;
use gw_site::{MemSink, MemSource, NoSite, Site};
use std::alloc::{AllocError, Global};
use std::str;
use std::test::Fail;

/// The words of a line.
fn words_of(alloc: Global, line: &str) -> Result<Vec<Text>, AllocError> {
    let mut words = Vec::new(alloc);
    for word in line.split_whitespace() {
        words.push(Text::new(String::from_str(alloc, word)?))?;
    }
    Ok(words)
}

/// The status of the top call with the words of a line, over this site.
pub fn ended_over<S: Site>(
    alloc: Global,
    line: &str,
    site: &mut S,
    input: &mut MemSource,
    out: &mut MemSink,
) -> Result<u8, AllocError> {
    let words = words_of(alloc, line)?;
    Ok(top(alloc, &words, site, input, out))
}

/// The status of the top call with the words of a line.
pub fn ended(
    alloc: Global,
    line: &str,
    input: &mut MemSource,
    out: &mut MemSink,
) -> Result<u8, AllocError> {
    ended_over(alloc, line, &mut NoSite::new(), input, out)
}

/// The first line of a text that differs from the one that is wanted, and that one.
pub fn difference<'a>(found: &'a str, wanted: &'a str) -> Option<(&'a str, &'a str)> {
    if found == wanted {
        return None;
    }
    let mut lines = found.split('\n');
    for line in wanted.split('\n') {
        let other = lines.next().unwrap_or("nothing");
        if other != line {
            return Some((other, line));
        }
    }
    Some(("more lines", "none"))
}

/// A text is this one; else the failure names the row and the first line that is another.
pub fn check_text(row: &str, found: &str, wanted: &str) -> Result<(), Fail> {
    match difference(found, wanted) {
        None => Ok(()),
        Some((other, line)) => Err(Fail::new(format_args!("{other} in place of {line}, of {row}"))),
    }
}

/// A call has ended with this status, and has written this.
pub fn compare(row: &str, ended: (u8, &MemSink), wanted: (u8, &str)) -> Result<(), Fail> {
    let (status, out) = ended;
    let (wanted_status, output) = wanted;
    check_text(row, str::from_utf8(out.bytes().as_slice())?, output)?;
    if status != wanted_status {
        return Err(Fail::new(format_args!(
            "status {status} in place of {wanted_status}, of {row}"
        )));
    }
    Ok(())
}

/// What a replay of this script has written, which ends with status 0.
pub fn replayed(alloc: Global, script: &str) -> Result<MemSink, Fail> {
    let mut input = MemSource::new(Bytes::copied(alloc, script.as_bytes())?, None);
    let mut out = MemSink::new(alloc, None, 0);
    match ended(alloc, "replay", &mut input, &mut out)? {
        0 => Ok(out),
        _ => Err(Fail::from("another status")),
    }
}
