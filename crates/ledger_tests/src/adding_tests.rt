//! A payment and a reconciliation that are added to the ledger of a day, one call after the other.
ghost use Rattle.std.specs.Prelude.{IsTrue};
ghost use Rattle.jrn_record.specs.Limits.{IsIntent, IsOutcome, IsSettled};
ghost use Rattle.jrn_record.specs.declared.records.Record.{Record};
ghost use Rattle.gw_ledger.specs.Fold.{fits};

use crate::records::{body_of, halves, ledger_of_day};
use crate::says::{check_lines, push_says, push_totals, terminal};
use gw_base::{Ident, Key};
use gw_ledger::{Ledger, Totals, law_fits};
use jrn_record::{Deal, Intent, Outcome, Record, Settled, from_body};
use std::alloc::Global;
use std::process::Abort;
use std::test::Fail;

/// Whether the payment may come next.
fn payment_fits(ledger: &Ledger, intent: &Intent) -> bool
    ensures { IsTrue result → IsTrue (fits ledger.now.records (Record.Intent intent.now)) }
{
    law_fits();
    ledger.law_folded();
    match intent.what {
        Deal::Payment => {}
        Deal::Reversal => return false,
    }
    let key = Key {
        sale: intent.sale,
        poi: intent.poi,
        service: intent.service,
    };
    match ledger.find(&key) {
        Some(_) => return false,
        None => {}
    }
    match ledger.open_at(&intent.poi) {
        Some(_) => return false,
        None => {}
    }
    ledger.last_number(&intent.poi) <= intent.before
}

/// Whether the Outcome of the open payment at this terminal may come next.
fn outcome_fits(ledger: &Ledger, poi: &Ident<40>, outcome: &Outcome) -> bool
    ensures { IsTrue result → IsTrue (fits ledger.now.records (Record.Outcome outcome.now)) }
{
    law_fits();
    ledger.law_folded();
    match ledger.open_at(poi) {
        Some(entry) => {
            if outcome.slot != entry.slot {
                return false;
            }
            entry.intent.before < outcome.number
        }
        None => false,
    }
}

/// Whether the reconciliation may come next.
fn settled_fits(ledger: &Ledger, settled: &Settled) -> bool
    ensures { IsTrue result → IsTrue (fits ledger.now.records (Record.Settled settled.now)) }
{
    law_fits();
    ledger.law_folded();
    let key = Key {
        sale: settled.sale,
        poi: settled.poi,
        service: settled.service,
    };
    match ledger.find(&key) {
        Some(_) => false,
        None => true,
    }
}

/// Makes room for the payment and adds it.
fn accept(alloc: Global, ledger: &mut Ledger, intent: &Intent) -> Option<u32>
    requires { IsIntent intent.now }
{
    if ledger.records() >= 1000000 || !payment_fits(ledger, intent) {
        return None;
    }
    match ledger.reserve(alloc, 1) {
        Ok(()) => Some(ledger.accept(intent)),
        Err(_) => None,
    }
}

/// Adds the Outcome of the open payment at this terminal, and says whether it may follow.
fn resolve(ledger: &mut Ledger, poi: &Ident<40>, outcome: &Outcome) -> bool
    requires { IsOutcome outcome.now }
{
    if ledger.records() >= 1000000 || !outcome_fits(ledger, poi, outcome) {
        return false;
    }
    ledger.resolve(outcome);
    true
}

/// Makes room for the reconciliation and adds it.
fn settle(alloc: Global, ledger: &mut Ledger, settled: &Settled) -> Option<Totals>
    requires { IsSettled settled.now }
{
    if ledger.records() >= 1000000 || !settled_fits(ledger, settled) {
        return None;
    }
    match ledger.reserve(alloc, 1) {
        Ok(()) => Some(ledger.settle(settled)),
        Err(_) => None,
    }
}

/// What an addition returns.
#[derive(Clone, Copy)]
enum Added {
    Slot(u32),
    Outcome,
    Totals(Totals),
}

/// Adds the record of a body, if it may follow.
fn add_body(
    alloc: Global,
    ledger: &mut Ledger,
    poi: &Ident<40>,
    body: &[u8; 255],
) -> Option<Added> {
    match from_body(body) {
        Ok(Record::Intent(intent)) => Some(Added::Slot(accept(alloc, ledger, &intent)?)),
        Ok(Record::Outcome(outcome)) => {
            if resolve(ledger, poi, &outcome) {
                Some(Added::Outcome)
            } else {
                None
            }
        }
        Ok(Record::Settled(settled)) => Some(Added::Totals(settle(alloc, ledger, &settled)?)),
        Err(_) => None,
    }
}

/// Adds the record of a line, and appends what the ledger returns after the word `added`: the slot of a payment, the totals of a
/// reconciliation.
pub(crate) fn add(
    alloc: Global,
    text: &mut String,
    ledger: &mut Ledger,
    line: &str,
) -> Result<(), Fail> {
    let body = body_of(alloc, line)?;
    match add_body(alloc, ledger, &terminal()?, &body) {
        Some(Added::Slot(slot)) => write!(text, "added {slot}\n")?,
        Some(Added::Outcome) => text.push_str("added\n")?,
        Some(Added::Totals(totals)) => {
            text.push_str("added ")?;
            push_totals(text, &totals)?;
        }
        None => return Err(Fail::from("it may not follow")),
    }
    Ok(())
}

/// A payment, its approval and a reconciliation.
const ADDED: &str = "\
pay 4 000000000500 000125
> added 6
> entry 4 6 none
> payments 2 1599
> unresolved 1

approved 00000006 000126 000000000500
> added
> entry 4 6 126
> payments 3 2099
> reversals 1 1099

settled A 5
> added 3 2099 1 1099
> closed 5 8 3 2099 1 1099
> payments 0 0
> accepted 4
> approved 4
> unresolved 0
> sum 3198";

/// Adds the record of each row of a table to the ledger, and checks what it returns and says then.
fn check_added(
    rt: &impl Abort,
    alloc: Global,
    ledger: &mut Ledger,
    table: &str,
) -> Result<(), Fail> {
    for row in table.split("\n\n") {
        let mut says = String::new(alloc);
        let (line, _) = halves(row, '\n');
        add(alloc, &mut says, ledger, line)?;
        push_says(&mut says, ledger)?;
        check_lines(rt, row, says.as_str());
    }
    Ok(())
}

#[test]
fn a_payment_and_a_reconciliation(rt: HostRuntime) -> Result<(), Fail> {
    let mut ledger = ledger_of_day(rt.alloc())?;
    check_added(&rt, rt.alloc(), &mut ledger, ADDED)
}
