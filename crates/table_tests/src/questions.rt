//! Questions by their first word.
use crate::{frames, json, requests, values};
use case_files::{Questions, bytes_of, done};
use std::alloc::Global;

/// Appends the result of a question on bytes.
fn push_on_bytes(alloc: Global, out: &mut String, word: &str, words: &str) -> anyhow::Result<()> {
    let bytes = bytes_of(alloc, words)?;
    let bytes = bytes.as_slice();
    match word {
        "frames_by_byte" => done(frames::push_by_byte(alloc, out, bytes)),
        "json_bytes" => done(json::push_bytes(alloc, out, bytes)),
        "json_string" => json::push_string(alloc, out, bytes),
        "digits" => values::push_read(out, bytes),
        "ident_40" => done(values::push_ident_40(out, bytes)),
        "ident_2" => done(values::push_ident_2(out, bytes)),
        _ => anyhow::bail!("no such question"),
    }
}

/// Appends the result of a question on a text.
fn push_on_text(alloc: Global, out: &mut String, word: &str, words: &str) -> anyhow::Result<()> {
    match word {
        "frames" => frames::push_frames(alloc, out, words),
        "json" => json::push_text(alloc, out, words),
        "json_member" => json::push_member(alloc, out, words),
        "class" | "message_type" | "period" => done(requests::push_named(out, word, words)),
        "request"
        | "headed"
        | "payment"
        | "message"
        | "payment_in_two_chunks"
        | "display_lines"
        | "rewrite_request" => requests::push_on_message(alloc, out, word, words),
        "stamp"
        | "amount"
        | "digits_of"
        | "currency"
        | "currency_number"
        | "letter"
        | "condition" => values::push_value(out, word, words),
        _ => push_on_bytes(alloc, out, word, words),
    }
}

/// The questions on values and messages of tills.
pub struct OnTables;

impl Questions for OnTables {
    fn push_result(
        alloc: Global,
        out: &mut String,
        _before: &str,
        line: &str,
    ) -> anyhow::Result<()> {
        let (word, words) = line.split_once(' ').unwrap_or((line, ""));
        push_on_text(alloc, out, word, words)
    }
}
