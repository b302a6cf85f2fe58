//! Bytes as words: digits in hexadecimal, such digits so many times over as `41*300`, and a text without spaces as `'text`.
use std::alloc::{AllocError, Global};

/// The fewest same bytes that are written as one word with their count.
const SHORTEST_RUN: usize = 16;

/// Appends the bytes of a word.
fn push_word(alloc: Global, bytes: &mut Vec<u8>, word: &str) -> anyhow::Result<()> {
    if let Some(text) = word.strip_prefix("'") {
        bytes.extend_from_slice(text.as_bytes())?;
        return Ok(());
    }
    let (digits, times) = word.split_once('*').unwrap_or((word, "1"));
    let group = hex::decode(alloc, digits)?;
    for _ in 0..times.parse::<u32>()? {
        bytes.extend_from_slice(group.as_slice())?;
    }
    Ok(())
}

/// The bytes of some words.
pub fn bytes_of(alloc: Global, words: &str) -> anyhow::Result<Vec<u8>> {
    let mut bytes = Vec::new(alloc);
    for word in words.split_whitespace() {
        push_word(alloc, &mut bytes, word)?;
    }
    Ok(bytes)
}

/// The same byte so many times.
#[derive(Clone, Copy)]
struct Run {
    byte: u8,
    count: usize,
}

impl Run {
    fn is_long(self) -> bool {
        self.count >= SHORTEST_RUN
    }
}

fn push_run(out: &mut String, run: Run) -> Result<(), AllocError> {
    let Run { byte, count } = run;
    if run.is_long() {
        return write!(out, "{byte:02x}*{count}");
    }
    for _ in 0..count {
        write!(out, "{byte:02x}")?;
    }
    Ok(())
}

/// Appends a run after another one: a long one is a word of its own.
fn push_next(out: &mut String, before: Run, run: Run) -> Result<(), AllocError> {
    if before.count > 0 && (before.is_long() || run.is_long()) {
        out.push_str(" ")?;
    }
    push_run(out, run)
}

/// Appends the runs of bytes.
fn push_runs(out: &mut String, first: u8, rest: &[u8]) -> Result<(), AllocError> {
    let mut before = Run { byte: 0, count: 0 };
    let mut run = Run {
        byte: first,
        count: 1,
    };
    for byte in rest {
        if *byte == run.byte {
            run.count = run.count.saturating_add(1);
        } else {
            push_next(out, before, run)?;
            before = run;
            run = Run {
                byte: *byte,
                count: 1,
            };
        }
    }
    push_next(out, before, run)
}

/// Appends bytes as words, or `nothing`.
pub fn push_bytes(out: &mut String, bytes: &[u8]) -> Result<(), AllocError> {
    match bytes {
        [] => out.push_str("nothing"),
        [first, rest @ ..] => push_runs(out, *first, rest),
    }
}

/// Appends bytes as a line of a result.
pub fn push_result_bytes(out: &mut String, bytes: &[u8]) -> Result<(), AllocError> {
    out.push_str("> ")?;
    push_bytes(out, bytes)?;
    out.push_str("\n")
}
