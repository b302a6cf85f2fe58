//! The setup that a configuration document gives.
ghost use Rattle.std.specs.Prelude.{◌≡◌, ◌≢◌, nat_lt, Some, None, codes, IfOk, IfErr, MatchResult};
ghost use Rattle.toml.specs.View.{table_view};
ghost use Rattle.gw_base.specs.Setup.{IsSetup};
ghost use Rattle.gw_config.specs.declared.fault.ConfigFault.TheVariants.{Memory, NotToml};
ghost use Rattle.gw_config.specs.Faults.{document_limit, first_some, table_fault, fault_in, without_offset, IsInsideOf};
ghost use Rattle.gw_config.specs.Grammar.{document_of, IsSetupOf, IsSetupIn};
ghost use Rattle.gw_config.specs.inner.Decode.{AreLimitsOf, AreTerminalsOf, Reports, limit_faults, terminal_table_faults};

use crate::ConfigFault;
use crate::section::Section;
use crate::terminal::read_terminals;
use crate::unknown::check_keys;
use gw_base::{Ident, Pt, Pts, Setup};
use gw_bytes::{FEWEST_SLOTS, LONGEST_CONFIGURATION, LONGEST_WAIT, MOST_SLOTS, MOST_WAITING};
use std::alloc::Global;
use toml::Table;

/// The setup that a configuration document gives, or the first fault of the document.
pub fn read_setup(alloc: Global, bytes: &[u8]) -> Result<Setup, ConfigFault>
    // The setup is the one that the document is, and lies within the limits of a setup.
    ensures setup { IfOk result (IsSetupIn bytes.now) }
    ensures limits { IfOk result IsSetup }

    // A setup is given only where the document has no fault, and else its first fault, unless memory ran out.
    ensures sound { IfOk result (λ _. fault_in bytes.now ≡ None) }
    ensures fault { IfErr result (λ fault. fault ≢ Memory → fault_in bytes.now ≡ Some (without_offset fault)) }
    ensures offset { IfErr result (IsInsideOf bytes.now) }
{
    if is_too_long(bytes.len()) {
        return Err(ConfigFault::Long);
    }
    let table = read_table(alloc, bytes)?;
    read_document(alloc, &table)
}

/// Whether a document of so many bytes is too long.
fn is_too_long(length: usize) -> bool
    ensures { result ≡ nat_lt document_limit length }
{
    length > LONGEST_CONFIGURATION
}

/// The table that bytes are.
fn read_table(alloc: Global, bytes: &[u8]) -> Result<Table, ConfigFault>
    ensures table { MatchResult result (λ table. document_of bytes.now ≡ Some (table_view table))
        (λ fault. fault ≢ Memory → document_of bytes.now ≡ None) }
    ensures fault { IfErr result (λ fault. fault ≢ Memory → without_offset fault ≡ NotToml 0) }
    ensures offset { IfErr result (IsInsideOf bytes.now) }
{
    match toml::table_from_slice(alloc, bytes) {
        Ok(table) => Ok(table),
        Err(error) => match error.span() {
            // Only the error for refused memory has no offset.
            None => Err(ConfigFault::Memory),
            Some(span) => Err(ConfigFault::NotToml { at: span.start }),
        },
    }
}

/// The setup of a table.
fn read_document(alloc: Global, table: &Table) -> Result<Setup, ConfigFault>
    ensures { MatchResult result
        (λ setup. (table_fault (table_view table.now) ≡ None) × IsSetupOf (table_view table.now) setup)
        (Reports (table_fault (table_view table.now))) }
{
    let document = Section { table, prefix: "" };
    let listen = document.text(alloc, "listen")?;
    let journal = document.text(alloc, "journal")?;
    let name = document.identifier(alloc, "name", default_name())?;
    let Limits { line, wait, slots } = read_limits(alloc, &document)?;
    let terminals = read_terminal_tables(alloc, &document)?;
    Ok(Setup {
        name,
        listen,
        journal,
        line,
        wait,
        slots,
        terminals: Pts::new(terminals),
    })
}

/// The limits of what waits, and of the journal.
#[derive(Clone, Copy)]
struct Limits {
    line: u8,
    wait: u32,
    slots: u32,
}

/// The limits that a document gives.
fn read_limits(alloc: Global, document: &Section) -> Result<Limits, ConfigFault>
    ensures { MatchResult result
        (λ limits. (first_some (limit_faults document.now.prefix.now (table_view document.now.table.now)) ≡ None)
        × AreLimitsOf (table_view document.now.table.now) limits)
        (Reports (first_some (limit_faults document.now.prefix.now (table_view document.now.table.now)))) }
{
    let line = document.integer(alloc, "line", 0, MOST_WAITING as u32, 0)? as u8;
    let wait = document.integer(alloc, "wait", 1, LONGEST_WAIT as u32, 60)?;
    let slots = document.integer(alloc, "slots", FEWEST_SLOTS, MOST_SLOTS, MOST_SLOTS)?;
    Ok(Limits { line, wait, slots })
}

/// The terminals of a document, where it and its terminals have known keys alone.
fn read_terminal_tables(alloc: Global, document: &Section) -> Result<Vec<Pt>, ConfigFault>
    ensures { MatchResult result
        (λ pts. (first_some (terminal_table_faults document.now.prefix.now (table_view document.now.table.now)) ≡ None)
        × AreTerminalsOf (table_view document.now.table.now) pts.items)
        (Reports (first_some (terminal_table_faults document.now.prefix.now (table_view document.now.table.now)))) }
{
    let values = match document.tables(alloc, "terminal") {
        Ok(values) => values,
        Err(fault) => return Err(fault),
    };
    let terminals = read_terminals(alloc, values)?;
    // Last, so that a key whose name is misspelt is reported as missing where it has to be there.
    check_keys(alloc, document.table, values)?;
    Ok(terminals)
}

/// The gateway's name where the document gives none.
fn default_name() -> Option<Ident<40>>
    ensures { result ≡ Some (codes "GATEWAY") }
{
    Ident::of(b"GATEWAY")
}
