//! What a message means for a payment or a reversal that a terminal serves: its end is kept, and then its till gets the reply.
ghost use Rattle.std.specs.Prelude.{◌≡◌, ◌≤◌, ◌++◌, ℕ, List, Option, IfSome, IsTrue};
ghost use Rattle.gw_base.specs.Moment.{IsMoment, moment_of};
ghost use Rattle.gw_base.specs.declared.setup.Setup.{Setup};
ghost use Rattle.jrn_record.specs.Limits.{IsOutcome, reason_code};
ghost use Rattle.sale_reply.specs.Limits.{HasUnlimitedParts, IsWithinLimits};
ghost use Rattle.sale_reply.specs.declared.reply.SaleReply.{SaleReply as TheReply};
ghost use Rattle.jrn_record.specs.declared.records.Record.{Record as TheRecord};
ghost use Rattle.gw_ledger.specs.Fold.{fits};
ghost use Rattle.zvt_talk.specs.Limits.{FiguresFitRecord};
ghost use Rattle.gw_owes.specs.Calls.{OwedCall, keep_calls};
ghost use Rattle.gw_owes.specs.Core.{Core as CoreValue};
ghost use Rattle.gw_owes.specs.HeardLaws.{FitsRecord};
ghost use Rattle.gw_owes.specs.RecordLaws.{IsServedOpen};
ghost use Rattle.gw_owes.specs.Reply.{ReplyValue};
ghost use Rattle.gw_owes.specs.Serving.{approved_outcome, approved_row, at_rest, declined_outcome, declined_row, done_with, last_after_decline, refused_outcome, reply_to_outcome, resolves, serving_transaction, stops, was_stopped};
ghost use Rattle.gw_owes.specs.Terminals.{reply_calls_to, with_terminal};
ghost use Rattle.gw_core.specs.IsRow.{AreCallsWith, IsRow, IsWantedAt, MayBeKept, alone, known_with};
ghost use Rattle.gw_core.specs.ReplyOf.{AreSameReplies};

use crate::act::{Act, Acts};
use crate::awaited::one_more;
use crate::till::lies_within;
use gw_base::{Condition, Figures};
use gw_ledger::{Entry, Found, Ledger, law_fits, law_within};
use gw_owes::{Standing, Terminal};
use jrn_record::{Outcome, Record};
use sale_reply::SaleReply;
use xlate::{condition_of, reply_of};
use zvt_msg::Command;
use zvt_talk::{Heard, Talk};

/// No dialogue runs any more, and the terminal has this standing.
pub(crate) fn rest(terminal: &mut Terminal, standing: Standing)
    ensures { terminal.new ≡ at_rest terminal.old standing }
{
    terminal.standing = standing;
    terminal.talk = None;
}

/// The dialogue is over, and no till waits for its end any more: the terminal has this standing.
pub(crate) fn done(terminal: &mut Terminal, standing: Standing)
    ensures { terminal.new ≡ done_with terminal.old standing }
{
    rest(terminal, standing);
    terminal.asker = None;
}

/// The till is sent the reply, where there are both.
pub(crate) fn send_to(asker: Option<u64>, reply: Option<SaleReply<'static>>) -> Option<Act<'static>>
    requires { IfSome reply (λ (given : TheReply). HasUnlimitedParts given → IsWithinLimits given) }
    ensures calls { (before : List OwedCall) (owed : Option ReplyValue) → AreSameReplies reply.entry owed → AreCallsWith before result (before ++ reply_calls_to asker owed) }
    ensures wanted { (pt : ℕ) → IfSome result (IsWantedAt pt) }
{
    match (asker, reply) {
        (Some(till), Some(reply)) => {
            lies_within(&reply);
            Some(Act::SendTill(till, reply))
        }
        _ => None,
    }
}

/// An approval with these figures.
pub(crate) fn approved_outcome(slot: u32, figures: Figures, now: i64) -> Outcome
    requires moment { IsMoment now }
    requires figures { FiguresFitRecord figures }
    ensures outcome { result ≡ approved_outcome slot figures (moment_of now) }
    ensures within { IsOutcome result }
{
    Outcome {
        approved: true,
        slot,
        number: figures.number,
        receipt: figures.receipt,
        amount: figures.amount,
        condition: None,
        moment: now,
    }
}

/// Whether `06 B0` was sent in the dialogue.
pub(crate) fn was_stopped(talk: &Option<Talk>) -> bool
    ensures { result ≡ was_stopped talk.now }
{
    match talk {
        None => false,
        Some(talk) => talk.aborted(),
    }
}

/// A refusal for this reason.
pub(crate) fn refused_outcome(slot: u32, condition: Condition, now: i64) -> Outcome
    requires moment { IsMoment now }
    requires reason { 1 ≤ reason_code condition }
    ensures outcome { result ≡ refused_outcome slot condition (moment_of now) }
    ensures within { IsOutcome result }
{
    Outcome {
        approved: false,
        slot,
        number: 0,
        receipt: 0,
        amount: 0,
        condition: Some(condition),
        moment: now,
    }
}

/// A decline for this result code.
pub(crate) fn declined_outcome(slot: u32, result_code: u8, stop_sent: bool, now: i64) -> Outcome
    requires moment { IsMoment now }
    ensures outcome { result ≡ declined_outcome slot result_code stop_sent (moment_of now) }
    ensures within { IsOutcome result }
{
    refused_outcome(slot, condition_of(result_code, stop_sent), now)
}

/// The reply to the entry of this Outcome's slot once it has it.
fn reply_to_outcome(ledger: &Ledger, outcome: &Outcome) -> Option<SaleReply<'static>>
    requires { IsOutcome outcome.now }
    ensures reply { AreSameReplies result (reply_to_outcome ledger.now.records outcome.now.slot outcome.now) }
    ensures limits { IfSome result IsWithinLimits }
{
    ledger.law_folded();
    law_within();
    match ledger.entry(outcome.slot) {
        None => None,
        Some(entry) => Some(reply_of(&Found::Entry(Entry {
            slot: entry.slot,
            intent: entry.intent,
            result: Some(*outcome),
        }))),
    }
}

/// The till is sent the reply to the Outcome, where it is there.
fn reply_to_asker(asker: Option<u64>, ledger: &Ledger, outcome: &Outcome) -> Option<Act<'static>>
    requires { IsOutcome outcome.now }
    ensures calls { (slot : ℕ) → AreCallsWith (keep_calls slot (Record.Outcome outcome.now)) result
        (keep_calls slot (Record.Outcome outcome.now) ++ reply_calls_to asker (reply_to_outcome ledger.now.records outcome.now.slot outcome.now)) }
    ensures wanted { (pt : ℕ) → IfSome result (IsWantedAt pt) }
{
    match asker {
        None => None,
        Some(till) => match reply_to_outcome(ledger, outcome) {
            None => None,
            Some(reply) => Some(Act::SendTill(till, reply)),
        },
    }
}

/// The Outcome is kept, and then the till is sent the reply, where it is there.
pub(crate) fn resolve(
    terminal: &mut Terminal,
    ledger: &Ledger,
    standing: Standing,
    outcome: Outcome,
) -> Acts<'static>
    requires within { IsOutcome outcome }
    requires fitting { IsTrue (fits ledger.now.records (Record.Outcome outcome)) }
    ensures row { (setup : Setup) (core : CoreValue) (moment pt : ℕ)
        → IsRow ledger.now.records (resolves (known_with setup ledger.now.records core moment) pt terminal.old standing outcome) (with_terminal core pt terminal.new) result }
    ensures kept { IfSome result.keep (MayBeKept ledger.now.records) }
    ensures wanted { (pt : ℕ) → IfSome result.act (IsWantedAt pt) }
    ensures settings { terminal.new.pt ≡ terminal.old.pt }
    ensures standing { terminal.new.standing ≡ standing }
{
    let act = reply_to_asker(terminal.asker, ledger, &outcome);
    done(terminal, standing);
    Acts {
        keep: Some(Record::Outcome(outcome)),
        act,
    }
}

/// A payment or a reversal is approved. A trace number that isn't above the number before is not believed.
fn approved(
    terminal: &mut Terminal,
    ledger: &Ledger,
    slot: u32,
    last: u32,
    figures: Figures,
    now: i64,
) -> Acts<'static>
    requires moment { IsMoment now }
    requires figures { FiguresFitRecord figures }
    requires open { IsServedOpen ledger.now.records terminal.old.pt.poi last slot }
    ensures row { (setup : Setup) (core : CoreValue) (pt : ℕ)
        → IsRow ledger.now.records (approved_row (known_with setup ledger.now.records core (moment_of now)) pt terminal.old slot last figures) (with_terminal core pt terminal.new) result }
    ensures kept { IfSome result.keep (MayBeKept ledger.now.records) }
    ensures wanted { (pt : ℕ) → IfSome result.act (IsWantedAt pt) }
    ensures settings { terminal.new.pt ≡ terminal.old.pt }
{
    ledger.law_folded();
    law_fits();
    if last < figures.number {
        let outcome = approved_outcome(slot, figures, now);
        let standing = Standing::Ready {
            last: figures.number,
        };
        return resolve(terminal, ledger, standing, outcome);
    }
    rest(
        terminal,
        Standing::Aside {
            before: last,
            reported: figures.number,
        },
    );
    Acts::none()
}

/// The last trace number after a decline: that of the last status where it is greater.
fn last_after_decline(last: u32, reported: Option<u32>) -> u32
    ensures { result ≡ last_after_decline last reported }
{
    match reported {
        Some(reported) if last < reported => reported,
        _ => last,
    }
}

/// A payment or a reversal is declined.
fn declined(
    terminal: &mut Terminal,
    ledger: &Ledger,
    slot: u32,
    last: u32,
    result_code: u8,
    reported: Option<u32>,
    now: i64,
) -> Acts<'static>
    requires moment { IsMoment now }
    requires open { IsServedOpen ledger.now.records terminal.old.pt.poi last slot }
    ensures row { (setup : Setup) (core : CoreValue) (pt : ℕ)
        → IsRow ledger.now.records (declined_row (known_with setup ledger.now.records core (moment_of now)) pt terminal.old slot last result_code reported) (with_terminal core pt terminal.new) result }
    ensures kept { IfSome result.keep (MayBeKept ledger.now.records) }
    ensures wanted { (pt : ℕ) → IfSome result.act (IsWantedAt pt) }
    ensures settings { terminal.new.pt ≡ terminal.old.pt }
{
    ledger.law_folded();
    law_fits();
    let outcome = declined_outcome(slot, result_code, was_stopped(&terminal.talk), now);
    let standing = Standing::Ready {
        last: last_after_decline(last, reported),
    };
    resolve(terminal, ledger, standing, outcome)
}

/// A stop that was wished is sent, and the dialogue goes on.
pub(crate) fn stop(terminal: &mut Terminal, pt: u16) -> Option<Act<'static>>
    ensures row { (setup : Setup) (kept : List TheRecord) (core : CoreValue) (moment : ℕ)
        → IsRow kept (stops (known_with setup kept core moment) pt terminal.old) (with_terminal core pt terminal.new) (alone result) }
    ensures wanted { IfSome result (IsWantedAt pt) }
    ensures settings { terminal.new.pt ≡ terminal.old.pt }
    ensures standing { terminal.new.standing ≡ terminal.old.standing }
{
    terminal.awaited = one_more(terminal.awaited);
    Some(Act::SendPt(pt, Command::Stop))
}

/// What follows in a payment or a reversal.
pub(crate) fn serving_transaction(
    terminal: &mut Terminal,
    ledger: &Ledger,
    pt: u16,
    slot: u32,
    last: u32,
    heard: Heard,
    now: i64,
) -> Acts<'static>
    requires moment { IsMoment now }
    requires open { IsServedOpen ledger.now.records terminal.old.pt.poi last slot }
    requires numbers { FitsRecord heard }
    ensures row { (setup : Setup) (core : CoreValue)
        → IsRow ledger.now.records (serving_transaction (known_with setup ledger.now.records core (moment_of now)) pt terminal.old slot last heard) (with_terminal core pt terminal.new) result }
    ensures kept { IfSome result.keep (MayBeKept ledger.now.records) }
    ensures wanted { IfSome result.act (IsWantedAt pt) }
    ensures settings { terminal.new.pt ≡ terminal.old.pt }
{
    match heard {
        Heard::Approved(figures) => approved(terminal, ledger, slot, last, figures, now),
        Heard::Declined { code, number } => {
            declined(terminal, ledger, slot, last, code, number, now)
        }
        Heard::Begun { stop: true } => Acts {
            keep: None,
            act: stop(terminal, pt),
        },
        Heard::Unclear => Acts::cut(pt),
        Heard::Begun { stop: false }
        | Heard::Note(_)
        | Heard::Line
        | Heard::Block
        | Heard::Seen
        | Heard::Done
        | Heard::Told { .. }
        | Heard::Stray => Acts::none(),
    }
}
