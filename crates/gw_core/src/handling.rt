//! What a message of a terminal means in each of its standings, and what follows from it.
ghost use Rattle.std.specs.Prelude.{◌≡◌, ◌≢◌, ◌≤◌, pos, true, List, IfSome, IsTrue, Some, option_map, slice_get};
ghost use Rattle.gw_base.specs.Moment.{IsMoment, moment_of};
ghost use Rattle.gw_base.specs.Setup.{IsPt};
ghost use Rattle.gw_base.specs.declared.setup.Setup.{Setup};
ghost use Rattle.jrn_record.specs.declared.records.Record.{Record};
ghost use Rattle.zvt_msg.specs.CommandGrammar.{HasCommandDigits};
ghost use Rattle.zvt_msg.specs.Message.{value_of};
ghost use Rattle.zvt_talk.specs.Came.{is_taken};
ghost use Rattle.zvt_talk.specs.Talk.{talk_goes_on};
ghost use Rattle.zvt_talk.specs.TalkSteps.{next_talk};
ghost use Rattle.gw_owes.specs.Row.{owing_where};
ghost use Rattle.gw_owes.specs.declared.terminal.Standing.{Standing};
ghost use Rattle.gw_owes.specs.Core.{Core as CoreValue};
ghost use Rattle.gw_owes.specs.Terminals.{after_command, with_terminal};
ghost use Rattle.gw_owes.specs.DeviceRequests.{greatest_device_number};
ghost use Rattle.gw_owes.specs.Dialogues.{HasItsDialogue};
ghost use Rattle.gw_owes.specs.Links.{is_linked};
ghost use Rattle.gw_owes.specs.Handling.{awaited_after, consequence, enquiring, enquiry_command, handle_message, meaning_at, meaning_for, registering, taken_as, taking};
ghost use Rattle.gw_owes.specs.HeardLaws.{FitsRecord};
ghost use Rattle.gw_owes.specs.RecordLaws.{AreRecordsOf, IsTalkRead, IsTerminalInOrder};
ghost use Rattle.gw_core.specs.IsRow.{HasFewLines, IsRow, IsWantedAt, MayBeKept, alone, known_with, with_numbered};

use crate::act::{Act, Acts};
use crate::awaited::{one_less, one_more};
use crate::device_requests::{device_request, next_device_number};
use crate::displays::serving_display;
use crate::reconciliations::serving_day;
use crate::reports::report;
use crate::serving::serving_transaction;
use gw_base::Pt;
use gw_ledger::Ledger;
use gw_owes::{Service, Standing, Terminal, law_meanings};
use zvt_msg::{Command, PtMessage};
use zvt_talk::{Heard, Talk};

/// Whether a terminal of this standing has a connection.
pub(crate) fn is_linked(standing: &Standing) -> bool
    ensures { result ≡ is_linked standing.now }
{
    !matches!(standing, Standing::Unlinked { .. })
}

/// The message that the dialogue is handed: a Nack that may be the late one of a stop is unclear.
fn taken_as<'a>(awaited: u32, message: &PtMessage<'a>) -> PtMessage<'a>
    ensures { value_of result ≡ taken_as awaited (value_of message.now) }
{
    match *message {
        PtMessage::Nack(code) => PtMessage::Nack(if awaited >= 2 { 0 } else { code }),
        other => other,
    }
}

/// How many Acks and Nacks are awaited after a message.
fn awaited_after(awaited: u32, message: &PtMessage<'_>) -> u32
    ensures { result ≡ awaited_after (value_of message.now) awaited }
{
    match message {
        PtMessage::Ack | PtMessage::Nack(_) => one_less(awaited),
        _ => awaited,
    }
}

/// What a message means for the dialogue that runs, which takes it.
fn hear(talk: &mut Option<Talk>, message: &PtMessage<'_>, now: i64) -> Heard
    requires moment { IsMoment now }
    requires goes_on { IfSome talk.old (λ t. IsTrue (talk_goes_on t)) }
    ensures meaning { result ≡ meaning_for talk.old (value_of message.now) }
    ensures next { talk.new ≡ option_map (λ t. next_talk t (value_of message.now) (pos (moment_of now))) talk.old }
{
    match talk {
        Some(talk) => talk.take(message, now),
        None => Heard::Stray,
    }
}

/// The terminal takes a message. Returns what it means.
fn take(terminal: &mut Terminal, message: &PtMessage<'_>, now: i64) -> Heard
    requires moment { IsMoment now }
    requires goes_on { IfSome terminal.old.talk (λ t. IsTrue (talk_goes_on t)) }
    ensures meaning { result ≡ meaning_at terminal.old (value_of message.now) }
    ensures taken { terminal.new ≡ taking terminal.old (value_of message.now) (moment_of now) }
    ensures numbers { IsTalkRead terminal.old.talk → FitsRecord result }
{
    law_meanings();
    let handed = taken_as(terminal.awaited, message);
    terminal.awaited = awaited_after(terminal.awaited, message);
    hear(&mut terminal.talk, &handed, now)
}

/// The enquiry of a terminal.
fn enquiry_command(pt: &Pt) -> Command
    ensures { result ≡ enquiry_command pt.now }
{
    Command::Enquire {
        password: pt.password,
    }
}

/// A command is to be sent to the terminal, whose dialogue begins.
pub(crate) fn ask(
    terminal: &mut Terminal,
    pt: u16,
    command: Command,
    standing: Standing,
    now: i64,
) -> Act<'static>
    requires moment { IsMoment now }
    requires not_stop { command ≢ Command.Stop }
    ensures asked { terminal.new ≡ after_command terminal.old command standing (moment_of now) }
    ensures act { result ≡ Act.SendPt pt command }
    ensures wanted { HasCommandDigits command → IsWantedAt pt result }
{
    terminal.talk = Some(Talk::start(
        &command,
        terminal.pt.none,
        terminal.pt.answer,
        terminal.pt.command,
        now,
    ));
    terminal.awaited = one_more(terminal.awaited);
    terminal.standing = standing;
    Act::SendPt(pt, command)
}

/// What follows in a registration.
fn registering(terminal: &mut Terminal, pt: u16, heard: Heard, now: i64) -> Option<Act<'static>>
    requires moment { IsMoment now }
    requires settings { IsPt terminal.old.pt }
    ensures row { (setup : Setup) (kept : List Record) (core : CoreValue)
        → IsRow kept (registering (known_with setup kept core (moment_of now)) pt terminal.old heard) (with_terminal core pt terminal.new) (alone result) }
    ensures wanted { IfSome result (IsWantedAt pt) }
    ensures settings { terminal.new.pt ≡ terminal.old.pt }
{
    match heard {
        Heard::Done => {
            let command = enquiry_command(&terminal.pt);
            Some(ask(terminal, pt, command, Standing::Enquiring, now))
        }
        Heard::Declined { .. } | Heard::Unclear => Some(Act::CutPt(pt)),
        // The terminal has only acknowledged it.
        Heard::Begun { .. } => None,
        Heard::Note(_)
        | Heard::Line
        | Heard::Block
        | Heard::Seen
        | Heard::Approved(_)
        | Heard::Told { .. }
        | Heard::Stray => None,
    }
}

/// What follows in an enquiry.
fn enquiring(
    terminal: &mut Terminal,
    ledger: &Ledger,
    pt: u16,
    heard: Heard,
    now: i64,
) -> Acts<'static>
    requires moment { IsMoment now }
    requires numbers { FitsRecord heard }
    ensures row { (setup : Setup) (core : CoreValue)
        → IsRow ledger.now.records (enquiring (known_with setup ledger.now.records core (moment_of now)) pt terminal.old heard) (with_terminal core pt terminal.new) result }
    ensures kept { IfSome result.keep (MayBeKept ledger.now.records) }
    ensures wanted { IfSome result.act (IsWantedAt pt) }
    ensures settings { terminal.new.pt ≡ terminal.old.pt }
{
    match heard {
        Heard::Told {
            number,
            approved,
            code,
        } => report(terminal, ledger, number, approved, code, now),
        Heard::Declined { .. } | Heard::Unclear => Acts::cut(pt),
        Heard::Begun { .. }
        | Heard::Note(_)
        | Heard::Line
        | Heard::Block
        | Heard::Seen
        | Heard::Approved(_)
        | Heard::Done
        | Heard::Stray => Acts::none(),
    }
}

/// What follows from a message that a terminal which is linked has taken.
fn follow(
    terminal: &mut Terminal,
    ledger: &Ledger,
    pt: u16,
    heard: Heard,
    now: i64,
) -> Acts<'static>
    requires moment { IsMoment now }
    requires linked { is_linked terminal.old.standing ≡ true }
    requires settings { IsPt terminal.old.pt }
    requires records { AreRecordsOf ledger.now.records terminal.old.pt.poi terminal.old.standing }
    requires numbers { FitsRecord heard }
    ensures row { (setup : Setup) (core : CoreValue)
        → IsRow ledger.now.records (consequence (known_with setup ledger.now.records core (moment_of now)) pt terminal.old heard terminal.old.standing) (with_terminal core pt terminal.new) result }
    ensures kept { IfSome result.keep (MayBeKept ledger.now.records) }
    ensures wanted { IfSome result.act (IsWantedAt pt) }
    ensures settings { terminal.new.pt ≡ terminal.old.pt }
{
    match terminal.standing {
        Standing::Registering => Acts {
            keep: None,
            act: registering(terminal, pt, heard, now),
        },
        Standing::Enquiring => enquiring(terminal, ledger, pt, heard, now),
        Standing::Serving {
            service: Service::Transaction { slot },
            last,
        } => serving_transaction(terminal, ledger, pt, slot, last, heard, now),
        Standing::Serving {
            service: Service::EndOfDay { header, .. },
            last,
        } => serving_day(terminal, ledger, pt, header, last, heard, now),
        Standing::Serving {
            service: Service::Display { header, .. },
            last,
        } => Acts {
            keep: None,
            act: serving_display(terminal, pt, header, last, heard),
        },
        Standing::Unlinked { .. } | Standing::Ready { .. } | Standing::Aside { .. } => Acts::none(),
    }
}

/// Whether a dialogue takes the message: a command of the terminal's own has no effect.
fn is_taken(message: &PtMessage<'_>) -> bool
    ensures { result ≡ is_taken (value_of message.now) }
{
    !matches!(message, PtMessage::Other)
}

/// A terminal handles a message that was acknowledged or refused, where it is linked. The next device request has this number.
pub(crate) fn handle<'a>(
    terminal: &mut Terminal,
    number: &mut u64,
    ledger: &Ledger,
    pt: u16,
    message: &PtMessage<'a>,
    now: i64,
) -> Acts<'a>
    requires moment { IsMoment now }
    requires dialogue { HasItsDialogue terminal.old }
    requires order { IsTerminalInOrder ledger.now.records terminal.old }
    requires settings { IsPt terminal.old.pt }
    requires number { number.old ≤ greatest_device_number }
    requires printed { HasFewLines (value_of message.now) }
    ensures row { (setup : Setup) (core : CoreValue) → slice_get core.terminals pt ≡ Some terminal.old → core.device_requests ≡ number.old
        → IsRow ledger.now.records (owing_where (is_linked terminal.old.standing) (known_with setup ledger.now.records core (moment_of now))
        (handle_message (known_with setup ledger.now.records core (moment_of now)) pt terminal.old (value_of message.now))) (with_numbered core pt terminal.new number.new) result }
    ensures number { number.new ≤ greatest_device_number }
    ensures kept { IfSome result.keep (MayBeKept ledger.now.records) }
    ensures wanted { IfSome result.act (IsWantedAt pt) }
    ensures settings { terminal.new.pt ≡ terminal.old.pt }
{
    if !is_linked(&terminal.standing) {
        return Acts::none();
    }
    if !is_taken(message) {
        return Acts::none();
    }
    let heard = take(terminal, message, now);
    let request = device_request(
        terminal.asker,
        &terminal.standing,
        ledger,
        *number,
        heard,
        message,
    );
    if let Some(act) = request {
        *number = next_device_number(*number);
        return Acts {
            keep: None,
            act: Some(act),
        };
    }
    follow(terminal, ledger, pt, heard, now)
}
