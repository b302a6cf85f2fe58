//! The terminals of a configuration.
ghost use Rattle.std.specs.Prelude.{◌≡◌, None, MatchResult};
ghost use Rattle.toml.specs.View.{table_view};
ghost use Rattle.gw_config.specs.Faults.{each_fault, first_some, terminal_fault, terminals_fault};
ghost use Rattle.gw_config.specs.Grammar.{IsPtOf, ArePtsOf};
ghost use Rattle.gw_config.specs.inner.Decode.{IsMannerOf, Reports, manner_faults, tables_of};

use crate::ConfigFault;
use crate::section::Section;
use crate::unique::first_repeated;
use gw_base::{Currency, Pt};
use gw_bytes::{LONGEST_ANSWER, LONGEST_WAIT};
use std::alloc::Global;
use toml::{Table, Value};

/// What precedes the name of a terminal's key where a fault names it.
pub(crate) const PREFIX: &str = "terminal.";

/// The terminals of the tables among these values, whose POIIDs have to differ.
pub(crate) fn read_terminals(alloc: Global, values: &[Value]) -> Result<Vec<Pt>, ConfigFault>
    ensures { MatchResult result
        (λ pts. (terminals_fault (tables_of values.now) ≡ None) × ArePtsOf (tables_of values.now) pts.items)
        (Reports (terminals_fault (tables_of values.now))) }
{
    // Every terminal is read first, so that two of one name are reported only where each is well-formed.
    let pts = read_each(alloc, values)?;
    match first_repeated(&pts) {
        None => Ok(pts),
        Some(poi) => Err(ConfigFault::Twice { poi }),
    }
}

/// The terminals of the tables among these values.
fn read_each(alloc: Global, values: &[Value]) -> Result<Vec<Pt>, ConfigFault>
    ensures { MatchResult result
        (λ pts. (each_fault (tables_of values.now) ≡ None) × ArePtsOf (tables_of values.now) pts.items)
        (Reports (each_fault (tables_of values.now))) }
{
    let mut pts = Vec::new(alloc);
    for value in values {
        if let Some(table) = value.as_table() {
            pts.push(read_terminal(alloc, table)?)?;
        }
    }
    Ok(pts)
}

/// The terminal of this table.
fn read_terminal(alloc: Global, table: &Table) -> Result<Pt, ConfigFault>
    ensures { MatchResult result
        (λ pt. (terminal_fault (table_view table.now) ≡ None) × IsPtOf (table_view table.now) pt)
        (Reports (terminal_fault (table_view table.now))) }
{
    let section = Section {
        table,
        prefix: PREFIX,
    };
    let poi = section.identifier(alloc, "poi", None)?;
    let address = section.text(alloc, "address")?;
    let Manner {
        currency,
        password,
        config,
        none,
        answer,
        command,
    } = read_manner(alloc, &section)?;
    Ok(Pt {
        poi,
        address,
        password,
        currency,
        config,
        none,
        answer,
        command,
    })
}

/// How a terminal is spoken to: what it is registered with, its code for no transaction, and how long it may be silent.
#[derive(Clone, Copy)]
struct Manner {
    currency: Currency,
    password: [u8; 3],
    config: u8,
    none: u8,
    answer: u32,
    command: u32,
}

/// How the terminal of a table is spoken to.
fn read_manner(alloc: Global, section: &Section) -> Result<Manner, ConfigFault>
    ensures { MatchResult result
        (λ manner. (first_some (manner_faults section.now.prefix.now (table_view section.now.table.now)) ≡ None)
        × IsMannerOf (table_view section.now.table.now) manner)
        (Reports (first_some (manner_faults section.now.prefix.now (table_view section.now.table.now)))) }
{
    let currency = section.currency(alloc, "currency")?;
    let password = section.six_digits(alloc, "password")?;
    let config = section.integer(alloc, "config", 0, 255, 0)? as u8;
    let none = section.integer(alloc, "none", 0, 255, 131)? as u8;
    let answer = section.integer(alloc, "answer", 1, LONGEST_ANSWER as u32, 5)?;
    let command = section.integer(alloc, "command", 1, LONGEST_WAIT as u32, 180)?;
    Ok(Manner {
        currency,
        password,
        config,
        none,
        answer,
        command,
    })
}
