//! Questions by their first word.
use crate::{received, replies, translation};
use case_files::{Questions, bytes_of, done};
use std::alloc::Global;

/// Appends the frame of the request that prints the lines of these bytes.
fn push_print_request(alloc: Global, out: &mut String, words: &str) -> anyhow::Result<()> {
    let bytes = bytes_of(alloc, words)?;
    replies::push_print_request(alloc, out, bytes.as_slice())
}

/// Appends the result of a question on a message to a till.
fn push_on_text(alloc: Global, out: &mut String, word: &str, words: &str) -> anyhow::Result<()> {
    match word {
        "write_reply" => replies::push_reply(alloc, out, words),
        "write_print_request" => push_print_request(alloc, out, words),
        "reply" | "transaction" | "reversed_amount" | "reply_text" => {
            done(received::push_on_reply(alloc, out, word, words))
        }
        _ => anyhow::bail!("no such question"),
    }
}

/// The questions on messages to tills and what is translated for them.
pub struct OnReplies;

impl Questions for OnReplies {
    fn push_result(
        alloc: Global,
        out: &mut String,
        before: &str,
        line: &str,
    ) -> anyhow::Result<()> {
        let (word, words) = line.split_once(' ').unwrap_or((line, ""));
        match word {
            "let" => Ok(()),
            "reply_to" => translation::push_reply(alloc, out, before, words),
            "reply_to_closed" => translation::push_closed(alloc, out, before, words),
            "text_of" => translation::push_text(alloc, out, before, words),
            _ => push_on_text(alloc, out, word, words),
        }
    }
}
