//! Questions by their first word.
use crate::{ledger, records};
use case_files::Questions;
use std::alloc::Global;

/// The questions on records, and on the ledger of the records before.
pub struct OnJournals;

impl Questions for OnJournals {
    fn push_result(
        alloc: Global,
        out: &mut String,
        before: &str,
        line: &str,
    ) -> anyhow::Result<()> {
        let (word, words) = line.split_once(' ').unwrap_or((line, ""));
        match word {
            "let" => Ok(()),
            "record" => records::push_read(alloc, out, before, words),
            "refused"
            | "totals"
            | "open"
            | "last"
            | "reversed"
            | "settled"
            | "found"
            | "named"
            | "number"
            | "open_count"
            | "accepted"
            | "approved"
            | "unresolved"
            | "sum" => { ledger::push_on_ledger(alloc, out, before, word, words) }
            _ if ledger::is_record(before, line) => Ok(()),
            _ => anyhow::bail!("no such question"),
        }
    }
}
