//! Adds an approved payment to a ledger.
ghost use Rattle.std.specs.Prelude.{IfSome, IsTrue};
ghost use Rattle.jrn_record.specs.Limits.{IsIntent, IsOutcome};
ghost use Rattle.jrn_record.specs.declared.records.Record.{Record};
ghost use Rattle.gw_ledger.specs.Fold.{fits};

use crate::journal::{approval, payment};
use anyhow::{Context, ensure};
use gw_base::Key;
use gw_ledger::{Ledger, law_fits};
use jrn_record::{Deal, Intent, Outcome, Record, from_body};
use std::rt::Clock;
use std::time::Instant;

/// The Intent of a body.
fn intent_of(body: &[u8; 255]) -> Option<Intent>
    ensures { IfSome result IsIntent }
{
    match from_body(body) {
        Ok(Record::Intent(intent)) => Some(intent),
        Ok(Record::Outcome(_)) | Ok(Record::Settled(_)) | Err(_) => None,
    }
}

/// The Outcome of a body.
fn outcome_of(body: &[u8; 255]) -> Option<Outcome>
    ensures { IfSome result IsOutcome }
{
    match from_body(body) {
        Ok(Record::Outcome(outcome)) => Some(outcome),
        Ok(Record::Intent(_)) | Ok(Record::Settled(_)) | Err(_) => None,
    }
}

/// Whether the payment may come next.
fn payment_fits(ledger: &Ledger, intent: &Intent) -> bool
    ensures { IsTrue result → IsTrue (fits ledger.now.records (Record.Intent intent.now)) }
{
    law_fits();
    ledger.law_folded();
    match intent.what {
        Deal::Payment => {}
        Deal::Reversal => return false,
    }
    let key = Key {
        sale: intent.sale,
        poi: intent.poi,
        service: intent.service,
    };
    match ledger.find(&key) {
        Some(_) => return false,
        None => {}
    }
    match ledger.open_at(&intent.poi) {
        Some(_) => return false,
        None => {}
    }
    ledger.last_number(&intent.poi) <= intent.before
}

/// Whether the Outcome of the terminal's open payment may come next.
fn outcome_fits(ledger: &Ledger, intent: &Intent, outcome: &Outcome) -> bool
    ensures { IsTrue result → IsTrue (fits ledger.now.records (Record.Outcome outcome.now)) }
{
    law_fits();
    ledger.law_folded();
    match ledger.open_at(&intent.poi) {
        Some(entry) => {
            if outcome.slot != entry.slot {
                return false;
            }
            entry.intent.before < outcome.number
        }
        None => false,
    }
}

/// Adds the payment with this number, and returns the nanoseconds that `accept` and `resolve` take.
pub fn add_payment<R: AllocGlobal + Clock>(
    rt: &R,
    ledger: &mut Ledger,
    number: u32,
) -> anyhow::Result<u128> {
    let intent = intent_of(&payment(number)).context("no Intent")?;
    let outcome = outcome_of(&approval(number)).context("no Outcome")?;
    ensure!(ledger.records() < 999999, "no room");
    ensure!(payment_fits(ledger, &intent), "the payment may not follow");
    ledger.reserve(rt.alloc(), 1)?;
    let start = Instant::now(rt)?;
    let _slot = ledger.accept(&intent);
    let accepting = start.elapsed(rt)?.as_nanos();
    ensure!(
        outcome_fits(ledger, &intent, &outcome),
        "the Outcome may not follow"
    );
    let start = Instant::now(rt)?;
    ledger.resolve(&outcome);
    let resolving = start.elapsed(rt)?.as_nanos();
    Ok(accepting.wrapping_add(resolving))
}
