//! Keys that a configuration doesn't have.
ghost use Rattle.std.specs.Prelude.{◌≡◌, None, fold, map, MatchResult};
ghost use Rattle.std.specs.List.{list_any, flat_map};
ghost use Rattle.std.specs.Option.{option_copied};
ghost use Rattle.std.specs.Str.{bytes_eq};
ghost use Rattle.toml.specs.View.{table_view};
ghost use Rattle.gw_config.specs.Faults.{smaller, smallest, unknown_keys, unknown_faults};
ghost use Rattle.gw_config.specs.inner.Decode.{Reports, tables_of};

use crate::ConfigFault;
use crate::section::wrong;
use crate::terminal::PREFIX;
use std::alloc::Global;
use toml::{Table, Value};

/// The names of the document's keys.
const DOCUMENT_KEYS: [&str; 7] = [
    "listen", "journal", "name", "line", "wait", "slots", "terminal",
];

/// The names of a terminal's keys.
const TERMINAL_KEYS: [&str; 8] = [
    "poi", "address", "currency", "password", "config", "none", "answer", "command",
];

/// Whether a document and the terminals among these values have known keys alone.
pub(crate) fn check_keys(
    alloc: Global,
    document: &Table,
    values: &[Value],
) -> Result<(), ConfigFault>
    ensures { MatchResult result
        (λ _. unknown_faults (table_view document.now) (tables_of values.now) ≡ None)
        (Reports (unknown_faults (table_view document.now) (tables_of values.now))) }
{
    if let Some(key) = smallest_unknown(document, &DOCUMENT_KEYS, None) {
        return Err(wrong(alloc, "", key));
    }
    if let Some(key) = smallest_unknown_among(values, &TERMINAL_KEYS) {
        return Err(wrong(alloc, PREFIX, key));
    }
    Ok(())
}

/// The smallest, by its bytes, of the keys that aren't known of the tables among these values.
fn smallest_unknown_among<'a>(values: &'a [Value], known: &[&str]) -> Option<&'a str>
    ensures { option_copied result ≡ smallest
        (flat_map (unknown_keys (map (λ name. name.now) known.now)) (tables_of values.now)) }
{
    let mut least = None;
    for value in values {
        if let Some(table) = value.as_table() {
            least = smallest_unknown(table, known, least);
        }
    }
    least
}

/// The smallest, by its bytes, of `least` and the keys of the table that aren't known.
fn smallest_unknown<'a>(table: &'a Table, known: &[&str], least: Option<&'a str>) -> Option<&'a str>
    ensures { option_copied result ≡ fold smaller (option_copied least.entry)
        (unknown_keys (map (λ name. name.now) known.now) (table_view table.now)) }
{
    let mut least = least;
    for key in table.keys() {
        if !is_known(key.as_str(), known) {
            least = smaller(least, key.as_str());
        }
    }
    least
}

/// Whether a key is one of these.
fn is_known(key: &str, known: &[&str]) -> bool
    ensures { result ≡ list_any (λ name. bytes_eq key.now name.now) known.now }
{
    known.iter().any(|name| key == *name)
}

/// The smaller of two names by their bytes, where there is a first one.
fn smaller<'a>(least: Option<&'a str>, key: &'a str) -> Option<&'a str>
    ensures { option_copied result ≡ smaller (option_copied least.entry) key.now }
{
    match least {
        None => Some(key),
        Some(least) => { if key < least { Some(key) } else { Some(least) } }
    }
}
