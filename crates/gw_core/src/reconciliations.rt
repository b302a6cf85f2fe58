//! A reconciliation: its Settled is kept, and then its till gets the totals; an end of day is asked of the terminal first.
ghost use Rattle.std.specs.Prelude.{◌≡◌, ℕ, List, IfSome, None, Some, length, slice_get, true};
ghost use Rattle.gw_base.specs.Moment.{IsMoment, moment_of};
ghost use Rattle.gw_base.specs.Setup.{IsPt};
ghost use Rattle.gw_base.specs.declared.setup.Setup.{Setup};
ghost use Rattle.jrn_record.specs.Limits.{IsSettled};
ghost use Rattle.jrn_record.specs.declared.records.Record.{Record as TheRecord};
ghost use Rattle.sale_reply.specs.Limits.{IsWithinLimits};
ghost use Rattle.gw_owes.specs.Core.{Core as CoreValue};
ghost use Rattle.gw_owes.specs.Reconciliations.{begins_day, begins_period, day_command, day_declined, day_done, reply_to_settled, serving_day, settle_calls, settled_of};
ghost use Rattle.gw_owes.specs.Steps.{is_ready_standing};
ghost use Rattle.gw_owes.specs.Terminals.{with_terminal};
ghost use Rattle.gw_core.specs.Beginning.{MayEndDay, MayBeginPeriod};
ghost use Rattle.gw_core.specs.IsRow.{IsActs, IsRow, IsWantedAt, MayBeKept, alone, known_with};
ghost use Rattle.gw_core.specs.ReplyOf.{AreSameReplies};

use crate::act::{Act, Acts};
use crate::beginning::last_number;
use crate::handling::ask;
use crate::refusal::refused;
use crate::serving::{done, send_to, stop, was_stopped};
use gw_base::{Currency, Pt};
use gw_ledger::{Closed, Found, Ledger, law_fits};
use gw_owes::{Service, Standing, Terminal};
use jrn_record::{How, Record, Settled};
use sale_msg::{Header, Period};
use sale_reply::SaleReply;
use xlate::{condition_of, reply_of};
use zvt_msg::Command;
use zvt_talk::Heard;

/// The Settled of a reconciliation in the terminal's currency.
fn settled_of(how: How, header: &Header, currency: Currency, now: i64) -> Settled
    requires moment { IsMoment now }
    requires within { IsSettled (settled_of how header.now currency (moment_of now)) }
    ensures { result ≡ settled_of how header.now currency (moment_of now) }
{
    let service = match header.service {
        Some(service) => service,
        // One that was read has its ServiceID.
        None => unreachable!(),
    };
    Settled {
        how,
        sale: header.sale,
        poi: header.poi,
        service,
        currency,
        moment: now,
    }
}

/// The reply to a reconciliation once its Settled is kept: the terminal's totals since its last one.
fn reply_to_settled(ledger: &Ledger, settled: &Settled) -> SaleReply<'static>
    requires { IsSettled settled.now }
    ensures reply { AreSameReplies (Some result) (reply_to_settled ledger.now.records settled.now) }
    ensures limits { IsWithinLimits result }
{
    reply_of(&Found::Closed(Closed {
        slot: ledger.records(),
        settled: *settled,
        totals: ledger.totals(&settled.poi, settled.currency),
    }))
}

/// The Settled is kept, and then the till gets the reply, where it is there.
fn settle(ledger: &Ledger, asker: Option<u64>, settled: Settled) -> Acts<'static>
    requires next { MayBeKept ledger.now.records (Record.Settled settled) }
    ensures calls { IsActs (length ledger.now.records) result (settle_calls ledger.now.records asker settled) }
    ensures kept { IfSome result.keep (MayBeKept ledger.now.records) }
    ensures wanted { (pt : ℕ) → IfSome result.act (IsWantedAt pt) }
{
    let act = send_to(asker, Some(reply_to_settled(ledger, &settled)));
    Acts {
        keep: Some(Record::Settled(settled)),
        act,
    }
}

/// The end of day.
fn day_command(pt: &Pt) -> Command
    ensures { result ≡ day_command pt.now }
{
    Command::EndOfDay {
        password: pt.password,
    }
}

/// A terminal that is ready is asked for an end of day, and serves it for this till.
fn begin_day(
    terminal: &mut Terminal,
    pt: u16,
    till: u64,
    header: &Header,
    now: i64,
) -> Acts<'static>
    requires moment { IsMoment now }
    requires settings { IsPt terminal.old.pt }
    requires begins { is_ready_standing terminal.old.standing ≡ true }
    ensures row { (setup : Setup) (kept : List TheRecord) (core : CoreValue)
        → IsRow kept (begins_day (known_with setup kept core (moment_of now)) pt till header.now terminal.old terminal.old.standing) (with_terminal core pt terminal.new) result }
    ensures none_kept { result.keep ≡ None }
    ensures wanted { IfSome result.act (IsWantedAt pt) }
    ensures settings { terminal.new.pt ≡ terminal.old.pt }
{
    let last = last_number(&terminal.standing);
    let command = day_command(&terminal.pt);
    let service = Service::EndOfDay {
        header: *header,
        period: Period::AcquirerReconciliation,
    };
    let act = ask(
        terminal,
        pt,
        command,
        Standing::Serving { service, last },
        now,
    );
    terminal.asker = Some(till);
    Acts {
        keep: None,
        act: Some(act),
    }
}

/// A reconciliation begins: one of the till's own is settled at once, and an end of day is begun at the terminal.
pub(crate) fn begin_reconciliation(
    terminal: &mut Terminal,
    ledger: &Ledger,
    pt: u16,
    till: u64,
    header: &Header,
    period: Period,
    now: i64,
) -> Acts<'static>
    requires moment { IsMoment now }
    requires settings { IsPt terminal.old.pt }
    requires begins { MayBeginPeriod ledger.now.records (moment_of now) header.now period terminal.old }
    ensures row { (setup : Setup) (core : CoreValue) → slice_get core.terminals pt ≡ Some terminal.old
        → IsRow ledger.now.records (begins_period (known_with setup ledger.now.records core (moment_of now)) pt till header.now period terminal.old) (with_terminal core pt terminal.new) result }
    ensures kept { IfSome result.keep (MayBeKept ledger.now.records) }
    ensures wanted { IfSome result.act (IsWantedAt pt) }
    ensures settings { terminal.new.pt ≡ terminal.old.pt }
{
    match period {
        Period::SaleReconciliation => {
            let settled = settled_of(How::Sale, header, terminal.pt.currency, now);
            settle(ledger, Some(till), settled)
        }
        Period::AcquirerReconciliation => begin_day(terminal, pt, till, header, now),
        Period::AcquirerSynchronisation | Period::PreviousReconciliation => unreachable!(),
    }
}

/// An end of day is done: its Settled is kept, and then its till gets the totals.
fn day_done(
    terminal: &mut Terminal,
    ledger: &Ledger,
    header: &Header,
    last: u32,
    now: i64,
) -> Acts<'static>
    requires moment { IsMoment now }
    requires served { MayEndDay ledger.now.records header.now }
    ensures row { (setup : Setup) (core : CoreValue) (pt : ℕ)
        → IsRow ledger.now.records (day_done (known_with setup ledger.now.records core (moment_of now)) pt terminal.old last header.now) (with_terminal core pt terminal.new) result }
    ensures kept { IfSome result.keep (MayBeKept ledger.now.records) }
    ensures wanted { (pt : ℕ) → IfSome result.act (IsWantedAt pt) }
    ensures settings { terminal.new.pt ≡ terminal.old.pt }
{
    ledger.law_folded();
    law_fits();
    let settled = settled_of(How::Acquirer, header, terminal.pt.currency, now);
    let acts = settle(ledger, terminal.asker, settled);
    done(terminal, Standing::Ready { last });
    acts
}

/// An end of day is declined: nothing is kept, and its till gets a Failure.
fn day_declined(
    terminal: &mut Terminal,
    header: &Header,
    last: u32,
    result_code: u8,
) -> Acts<'static>
    ensures row { (setup : Setup) (kept : List TheRecord) (core : CoreValue) (moment pt : ℕ)
        → IsRow kept (day_declined (known_with setup kept core moment) pt terminal.old last header.now result_code) (with_terminal core pt terminal.new) result }
    ensures none_kept { result.keep ≡ None }
    ensures wanted { (pt : ℕ) → IfSome result.act (IsWantedAt pt) }
    ensures settings { terminal.new.pt ≡ terminal.old.pt }
{
    let condition = condition_of(result_code, was_stopped(&terminal.talk));
    let act = send_to(terminal.asker, Some(refused(header, condition)));
    done(terminal, Standing::Ready { last });
    Acts { keep: None, act }
}

/// What follows in an end of day.
pub(crate) fn serving_day(
    terminal: &mut Terminal,
    ledger: &Ledger,
    pt: u16,
    header: Header,
    last: u32,
    heard: Heard,
    now: i64,
) -> Acts<'static>
    requires moment { IsMoment now }
    requires served { MayEndDay ledger.now.records header }
    ensures row { (setup : Setup) (core : CoreValue)
        → IsRow ledger.now.records (serving_day (known_with setup ledger.now.records core (moment_of now)) pt terminal.old last header heard) (with_terminal core pt terminal.new) result }
    ensures kept { IfSome result.keep (MayBeKept ledger.now.records) }
    ensures wanted { IfSome result.act (IsWantedAt pt) }
    ensures settings { terminal.new.pt ≡ terminal.old.pt }
{
    match heard {
        Heard::Done => day_done(terminal, ledger, &header, last, now),
        Heard::Declined { code, .. } => day_declined(terminal, &header, last, code),
        Heard::Begun { stop: true } => Acts {
            keep: None,
            act: stop(terminal, pt),
        },
        Heard::Unclear => Acts::cut(pt),
        Heard::Begun { stop: false }
        | Heard::Note(_)
        | Heard::Line
        | Heard::Block
        | Heard::Seen
        | Heard::Approved(_)
        | Heard::Told { .. }
        | Heard::Stray => Acts::none(),
    }
}
