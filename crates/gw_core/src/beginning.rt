//! A request begins at its terminal: the Intent of a payment or a reversal is kept, and then the terminal is asked; a reconciliation of
//! the till's own is settled, and an end of day and a display are asked of the terminal; at an Abort it is to stop what it serves.
ghost use Rattle.std.specs.Prelude.{◌≡◌, true, IfSome, Some, slice_get};
ghost use Rattle.std.specs.Option.{option_copied};
ghost use Rattle.gw_base.specs.Moment.{IsMoment, moment_of};
ghost use Rattle.gw_base.specs.Setup.{IsPt};
ghost use Rattle.gw_base.specs.declared.setup.Setup.{Setup};
ghost use Rattle.jrn_record.specs.Limits.{IsIntent};
ghost use Rattle.sale_values.specs.declared.request.SaleRequest.TheVariants.{Payment, Reversal};
ghost use Rattle.xlate.specs.Ask.{HasItsOriginal, IsOriginalWithinLimits};
ghost use Rattle.gw_owes.specs.Core.{Core as CoreValue};
ghost use Rattle.gw_owes.specs.Payments.{beginning_row, begins_in, payment_intent};
ghost use Rattle.gw_owes.specs.Steps.{is_ready_standing};
ghost use Rattle.gw_owes.specs.Terminals.{with_terminal};
ghost use Rattle.gw_core.specs.Beginning.{MayBegin, MayPay, MayReverse, begun_row};
ghost use Rattle.gw_core.specs.IsRow.{IsRow, IsWantedAt, MayBeKept, known_with};
ghost use Rattle.gw_core.specs.ReplyOf.{ArePrepared};

use crate::act::Acts;
use crate::displays::begin_display;
use crate::handling::ask;
use crate::reconciliations::begin_reconciliation;
use crate::reversals::{original_of, reversal_intent};
use crate::stops::wish_stop;
use gw_base::Currency;
use gw_ledger::{Entry, Ledger, law_named, law_within};
use gw_owes::{Service, Standing, Terminal};
use jrn_record::{Deal, Intent, Record};
use sale_msg::{Header, PaymentAsk, ReversalAsk, SaleRequest};
use sale_reply::OutputResults;
use xlate::{command_of, law_commands};

/// The last trace number of a terminal that is ready.
pub(crate) fn last_number(standing: &Standing) -> u32
    requires { is_ready_standing standing.now ≡ true }
    ensures { standing.now ≡ Standing.Ready result }
{
    match standing {
        Standing::Ready { last } => *last,
        _ => unreachable!(),
    }
}

/// The Intent of a payment in the terminal's currency, with the terminal's last trace number.
fn payment_intent(
    header: &Header,
    payment: &PaymentAsk,
    currency: Currency,
    last: u32,
    now: i64,
) -> Intent
    requires moment { IsMoment now }
    requires within { IsIntent (payment_intent header.now payment.now currency last (moment_of now)) }
    ensures { result ≡ payment_intent header.now payment.now currency last (moment_of now) }
{
    let service = match header.service {
        Some(service) => service,
        // One that was read has its ServiceID.
        None => unreachable!(),
    };
    Intent {
        what: Deal::Payment,
        sale: header.sale,
        poi: header.poi,
        service,
        transaction: Some(payment.transaction),
        stamp: Some(payment.stamp),
        amount: payment.amount,
        currency,
        before: last,
        original: None,
        moment: now,
    }
}

/// A terminal is asked for what an Intent says, which is kept first, and serves it for this till.
fn begin_asking(
    terminal: &mut Terminal,
    ledger: &Ledger,
    pt: u16,
    till: u64,
    intent: Intent,
    original: Option<&Entry>,
    now: i64,
) -> Acts<'static>
    requires moment { IsMoment now }
    requires settings { IsPt terminal.old.pt }
    requires kept { MayBeKept ledger.now.records (Record.Intent intent) }
    requires original { HasItsOriginal intent.what intent.original (option_copied original) }
    requires limits { IsOriginalWithinLimits (option_copied original) }
    ensures row { (setup : Setup) (core : CoreValue)
        → IsRow ledger.now.records (beginning_row (known_with setup ledger.now.records core (moment_of now)) pt till terminal.old intent.before intent (option_copied original.entry)) (with_terminal core pt terminal.new) result }
    ensures kept { IfSome result.keep (MayBeKept ledger.now.records) }
    ensures wanted { IfSome result.act (IsWantedAt pt) }
    ensures settings { terminal.new.pt ≡ terminal.old.pt }
{
    law_commands();
    let command = command_of(&intent, original, &terminal.pt);
    let service = Service::Transaction {
        slot: ledger.records(),
    };
    let last = intent.before;
    let act = ask(
        terminal,
        pt,
        command,
        Standing::Serving { service, last },
        now,
    );
    terminal.asker = Some(till);
    Acts {
        keep: Some(Record::Intent(intent)),
        act: Some(act),
    }
}

/// A terminal that is ready begins to serve a payment for this till.
fn begin_payment(
    terminal: &mut Terminal,
    ledger: &Ledger,
    pt: u16,
    till: u64,
    header: &Header,
    payment: &PaymentAsk,
    now: i64,
) -> Acts<'static>
    requires moment { IsMoment now }
    requires settings { IsPt terminal.old.pt }
    requires begins { MayPay ledger.now.records (moment_of now) header.now payment.now terminal.old }
    ensures row { (setup : Setup) (core : CoreValue)
        → IsRow ledger.now.records (begins_in (known_with setup ledger.now.records core (moment_of now)) pt till header.now (Payment payment.now) terminal.old terminal.old.standing) (with_terminal core pt terminal.new) result }
    ensures kept { IfSome result.keep (MayBeKept ledger.now.records) }
    ensures wanted { IfSome result.act (IsWantedAt pt) }
    ensures settings { terminal.new.pt ≡ terminal.old.pt }
{
    let last = last_number(&terminal.standing);
    let intent = payment_intent(header, payment, terminal.pt.currency, last, now);
    begin_asking(terminal, ledger, pt, till, intent, None, now)
}

/// A terminal that is ready begins to serve a reversal for this till.
fn begin_reversal(
    terminal: &mut Terminal,
    ledger: &Ledger,
    pt: u16,
    till: u64,
    header: &Header,
    reversal: &ReversalAsk,
    now: i64,
) -> Acts<'static>
    requires moment { IsMoment now }
    requires settings { IsPt terminal.old.pt }
    requires begins { MayReverse ledger.now.records (moment_of now) header.now reversal.now terminal.old }
    ensures row { (setup : Setup) (core : CoreValue)
        → IsRow ledger.now.records (begins_in (known_with setup ledger.now.records core (moment_of now)) pt till header.now (Reversal reversal.now) terminal.old terminal.old.standing) (with_terminal core pt terminal.new) result }
    ensures kept { IfSome result.keep (MayBeKept ledger.now.records) }
    ensures wanted { IfSome result.act (IsWantedAt pt) }
    ensures settings { terminal.new.pt ≡ terminal.old.pt }
{
    ledger.law_folded();
    law_named();
    law_within();
    let last = last_number(&terminal.standing);
    let original = match original_of(ledger, &header.poi, reversal) {
        Some(original) => original,
        // The steps have found it.
        None => unreachable!(),
    };
    let intent = reversal_intent(header, &original, last, now);
    begin_asking(terminal, ledger, pt, till, intent, Some(&original), now)
}

/// A terminal begins what a request of this till asks for.
pub(crate) fn begin_request(
    terminal: &mut Terminal,
    ledger: &Ledger,
    pt: u16,
    till: u64,
    header: &Header,
    request: &SaleRequest,
    results: Option<OutputResults>,
    now: i64,
) -> Acts<'static>
    requires moment { IsMoment now }
    requires settings { IsPt terminal.old.pt }
    requires prepared { ArePrepared request.now results }
    requires begins { MayBegin ledger.now.records (moment_of now) header.now request.now terminal.old }
    ensures row { (setup : Setup) (core : CoreValue) → slice_get core.terminals pt ≡ Some terminal.old
        → IsRow ledger.now.records (begun_row (known_with setup ledger.now.records core (moment_of now)) pt till header.now terminal.old request.now) (with_terminal core pt terminal.new) result }
    ensures kept { IfSome result.keep (MayBeKept ledger.now.records) }
    ensures wanted { IfSome result.act (IsWantedAt pt) }
    ensures settings { terminal.new.pt ≡ terminal.old.pt }
{
    match request {
        SaleRequest::Payment(payment) => {
            begin_payment(terminal, ledger, pt, till, header, payment, now)
        }
        SaleRequest::Reversal(reversal) => {
            begin_reversal(terminal, ledger, pt, till, header, reversal, now)
        }
        SaleRequest::Reconciliation(period) => {
            begin_reconciliation(terminal, ledger, pt, till, header, *period, now)
        }
        SaleRequest::Display(outputs) => {
            begin_display(terminal, pt, till, header, outputs, results, now)
        }
        SaleRequest::Abort(_) => Acts {
            keep: None,
            act: wish_stop(terminal, pt),
        },
        _ => unreachable!(),
    }
}
