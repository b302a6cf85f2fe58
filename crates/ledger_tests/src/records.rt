//! Records as lines, and the bodies that their forms give them, as `case_files` says. Lines that are empty or begin with `#` or `>` are
//! no records.
use case_files::body_of as body_by;
use gw_base::Bodies;
use gw_ledger::{Ledger, LedgerFault};
use std::alloc::Global;
use std::test::Fail;

/// The forms of records of till `S` at terminal `A`:
/// - a payment in euros: its ServiceID, its amount and the trace number before;
/// - a reversal: its terminal, its ServiceID, its amount, the number of its currency, the trace number before, and the slot of its original;
/// - an approval: the Intent's slot, the trace number, the amount;
/// - a reconciliation in euros: its terminal and its ServiceID.
const FORMS: &str = "\
let pay 0=0101 2:S 43:A 84:% 95:T 176:now 212=% 218=0978 220=% 223=ffffffff
let undo 0=0102 2:S 43:% 84:% 212=% 218=% 220=% 223=%
let approved 0=0201 2=% 6=% 9=0017 11=%
let settled 0=0301 2:S 43:% 84:% 95=0978";

/// 10.99 and 5.00 are approved, and the first is reversed.
const DAY: &str = "\
pay 1 000000001099 000000
approved 00000000 000123 000000001099
pay 2 000000000500 000123
approved 00000002 000124 000000000500
undo A 3 000000001099 0978 000124 00000000
approved 00000004 000125 000000001099";

/// A text up to the first of these characters, and what comes after that.
pub(crate) fn halves(text: &str, between: char) -> (&str, &str) {
    text.split_once(between).unwrap_or((text, ""))
}

/// The body of a record.
pub(crate) fn body_of(alloc: Global, line: &str) -> Result<[u8; 255], Fail> {
    match body_by(alloc, FORMS, line) {
        Ok(body) => Ok(body),
        Err(_) => Err(Fail::from("a line that is no record")),
    }
}

/// Whether a line is a record.
fn is_record(line: &str) -> bool {
    !line.is_empty() && !line.starts_with('#') && !line.starts_with('>')
}

/// Appends the bodies of a text's records.
fn push_bodies(alloc: Global, bodies: &mut Vec<[u8; 255]>, text: &str) -> Result<(), Fail> {
    for line in text.split('\n') {
        if is_record(line) {
            bodies.push(body_of(alloc, line)?)?;
        }
    }
    Ok(())
}

/// The ledger of these bodies, of which there are few.
fn folded(alloc: Global, bodies: Vec<[u8; 255]>) -> Result<Ledger, LedgerFault> {
    if bodies.len() > 10 {
        return Err(LedgerFault::Memory);
    }
    Ledger::from_records(alloc, &Bodies::new(bodies))
}

/// The ledger of the day.
pub(crate) fn ledger_of_day(alloc: Global) -> Result<Ledger, Fail> {
    let mut bodies = Vec::new(alloc);
    push_bodies(alloc, &mut bodies, DAY)?;
    match folded(alloc, bodies) {
        Ok(ledger) => Ok(ledger),
        Err(_) => Err(Fail::from("a record is refused")),
    }
}
