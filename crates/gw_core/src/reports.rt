//! What a terminal's report of its last transaction leads to: what is open on record has its Outcome by it.
ghost use Rattle.std.specs.Prelude.{◌≡◌, ◌<◌, ℕ, true, IfSome, Some};
ghost use Rattle.gw_base.specs.Moment.{IsMoment, moment_of};
ghost use Rattle.gw_base.specs.declared.setup.Setup.{Setup};
ghost use Rattle.jrn_record.specs.Limits.{IsOutcome};
ghost use Rattle.gw_ledger.specs.Fold.{open_entry};
ghost use Rattle.zvt_talk.specs.Limits.{FiguresFitRecord};
ghost use Rattle.gw_owes.specs.Core.{Core as CoreValue};
ghost use Rattle.gw_owes.specs.HeardLaws.{IsReportFit};
ghost use Rattle.gw_owes.specs.Reports.{on_record, outcome_as_last, outcome_reported, report_of_open, report_row, standing_reported};
ghost use Rattle.gw_owes.specs.Terminals.{with_terminal};
ghost use Rattle.gw_core.specs.IsRow.{IsRow, IsWantedAt, MayBeKept, known_with};

use crate::act::Acts;
use crate::serving::{approved_outcome, declined_outcome, refused_outcome, resolve, rest};
use gw_base::{Condition, Figures};
use gw_ledger::{Entry, Ledger, law_fits};
use gw_owes::{Standing, Terminal};
use jrn_record::Outcome;

/// The standing of a terminal that reports this trace number, where this is the least that it may report.
fn standing_reported(least: u32, trace: u32) -> Standing
    ensures { result ≡ standing_reported least trace }
{
    if least <= trace {
        Standing::Ready { last: trace }
    } else {
        Standing::Aside {
            before: least,
            reported: trace,
        }
    }
}

/// The Outcome of what is open in this slot, where it is the last transaction.
fn outcome_as_last(slot: u32, approved: Option<Figures>, result_code: u8, now: i64) -> Outcome
    requires moment { IsMoment now }
    requires figures { IfSome approved FiguresFitRecord }
    ensures outcome { result ≡ outcome_as_last slot approved result_code (moment_of now) }
    ensures within { IsOutcome result }
{
    match approved {
        Some(figures) => approved_outcome(slot, figures, now),
        None => declined_outcome(slot, result_code, false, now),
    }
}

/// The Outcome of this open entry by what is reported: above the number before, the last transaction is the one that is open;
/// where it is still that number, nothing came of it.
fn outcome_reported(
    entry: &Entry,
    trace: u32,
    approved: Option<Figures>,
    result_code: u8,
    now: i64,
) -> Outcome
    requires moment { IsMoment now }
    requires fit { IsReportFit trace approved }
    ensures outcome { result ≡ outcome_reported entry.now (record { trace = trace; approved = approved; result_code = result_code }) (moment_of now) }
    ensures within { IsOutcome result }
    ensures slot { result.slot ≡ entry.now.slot }
    ensures above { result.approved ≡ true → entry.now.intent.before < result.number }
{
    if entry.intent.before < trace {
        outcome_as_last(entry.slot, approved, result_code, now)
    } else {
        refused_outcome(entry.slot, Condition::Aborted, now)
    }
}

/// What a report leads to while this entry is open: its Outcome, unless the trace number is below the one before.
fn report_of_open(
    terminal: &mut Terminal,
    ledger: &Ledger,
    entry: &Entry,
    trace: u32,
    approved: Option<Figures>,
    result_code: u8,
    now: i64,
) -> Acts<'static>
    requires moment { IsMoment now }
    requires fit { IsReportFit trace approved }
    requires opened { open_entry ledger.now.records terminal.old.pt.poi ≡ Some entry.now }
    ensures row { (setup : Setup) (core : CoreValue) (pt : ℕ)
        → IsRow ledger.now.records (report_of_open (known_with setup ledger.now.records core (moment_of now)) pt terminal.old
        (record { trace = trace; approved = approved; result_code = result_code }) entry.now) (with_terminal core pt terminal.new) result }
    ensures kept { IfSome result.keep (MayBeKept ledger.now.records) }
    ensures wanted { (pt : ℕ) → IfSome result.act (IsWantedAt pt) }
    ensures settings { terminal.new.pt ≡ terminal.old.pt }
{
    ledger.law_folded();
    law_fits();
    let before = entry.intent.before;
    let standing = standing_reported(before, trace);
    if trace < before {
        rest(terminal, standing);
        return Acts::none();
    }
    let outcome = outcome_reported(entry, trace, approved, result_code, now);
    resolve(terminal, ledger, standing, outcome)
}

/// What the terminal's report of its last transaction leads to, by the records.
pub(crate) fn report(
    terminal: &mut Terminal,
    ledger: &Ledger,
    trace: u32,
    approved: Option<Figures>,
    result_code: u8,
    now: i64,
) -> Acts<'static>
    requires moment { IsMoment now }
    requires fit { IsReportFit trace approved }
    ensures row { (setup : Setup) (core : CoreValue) (pt : ℕ)
        → IsRow ledger.now.records (report_row (on_record ledger.now.records terminal.old.pt.poi) (known_with setup ledger.now.records core (moment_of now)) pt terminal.old
        (record { trace = trace; approved = approved; result_code = result_code })) (with_terminal core pt terminal.new) result }
    ensures kept { IfSome result.keep (MayBeKept ledger.now.records) }
    ensures wanted { (pt : ℕ) → IfSome result.act (IsWantedAt pt) }
    ensures settings { terminal.new.pt ≡ terminal.old.pt }
{
    match ledger.open_at(&terminal.pt.poi) {
        Some(entry) => report_of_open(terminal, ledger, &entry, trace, approved, result_code, now),
        None => {
            let last = ledger.last_number(&terminal.pt.poi);
            rest(terminal, standing_reported(last, trace));
            Acts::none()
        }
    }
}
