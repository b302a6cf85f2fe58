//! Questions by their first word.
use crate::{apdus, commands, dialogues, fields, messages, objects, translation};
use anyhow::Context;
use case_files::{Questions, bytes_of, done};
use std::alloc::Global;

/// Appends the result of a question on an APDU, which is its class, its instruction and its data.
fn push_on_apdu(out: &mut String, word: &str, bytes: &[u8]) -> anyhow::Result<()> {
    let apdu = messages::apdu_of(bytes).context("no APDU")?;
    match word {
        "pt_message" => done(messages::push_read(out, &apdu)),
        "rewrite_pt_message" => done(messages::push_rewritten(out, &apdu)),
        "command" => done(commands::push_read(out, &apdu)),
        _ => anyhow::bail!("no such question"),
    }
}

/// Appends the result of a question on APDUs.
fn push_on_apdus(alloc: Global, out: &mut String, word: &str, bytes: &[u8]) -> anyhow::Result<()> {
    match word {
        "apdus_by_byte" => apdus::push_by_byte(alloc, out, bytes),
        "apdus_in_three_chunks" => apdus::push_in_three_chunks(alloc, out, bytes),
        "write_apdu" => apdus::push_written(out, bytes),
        _ => push_on_apdu(out, word, bytes),
    }
}

/// Appends the result of a question on bytes.
fn push_on_bytes(alloc: Global, out: &mut String, word: &str, words: &str) -> anyhow::Result<()> {
    let bytes = bytes_of(alloc, words)?;
    let bytes = bytes.as_slice();
    match word {
        "objects" => done(objects::push_objects(out, bytes)),
        "tlv_length" => done(objects::push_length(out, bytes)),
        "fields" => done(fields::push_read(out, bytes)),
        "rewrite_fields" => done(fields::push_rewritten(out, bytes)),
        "lines" => done(messages::push_lines(out, bytes)),
        "count_lines" => done(messages::push_count(out, bytes)),
        _ => push_on_apdus(alloc, out, word, bytes),
    }
}

/// Appends the result of a question on a text.
fn push_on_text(alloc: Global, out: &mut String, word: &str, words: &str) -> anyhow::Result<()> {
    match word {
        "apdus_in_two_chunks" => apdus::push_two(alloc, out, words),
        "write_object" => objects::push_written(alloc, out, words),
        "dialogues" => dialogues::push_each(alloc, out, words),
        "dialogue" => dialogues::push_steps(alloc, out, words),
        "conditions" => done(translation::push_conditions(out)),
        _ => push_on_bytes(alloc, out, word, words),
    }
}

/// The questions on bytes and dialogues of terminals, and on what is translated for them.
pub struct OnTerminals;

impl Questions for OnTerminals {
    fn push_result(
        alloc: Global,
        out: &mut String,
        before: &str,
        line: &str,
    ) -> anyhow::Result<()> {
        let (word, words) = line.split_once(' ').unwrap_or((line, ""));
        match word {
            "let" => Ok(()),
            "command_for" => translation::push_command_for(alloc, out, before, words),
            _ => push_on_text(alloc, out, word, words),
        }
    }
}
