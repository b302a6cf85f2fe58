//! The table of the dialogue: what each message means.
ghost use Rattle.std.specs.Prelude.{◌≡◌};
ghost use Rattle.zvt_msg.specs.Message.{value_of};
ghost use Rattle.zvt_talk.specs.Table.{meaning_of_abort, meaning_of_completion, enquiry_aborted, enquiry_completed, meaning_when_asked, meaning_when_begun, service_completed, transaction_completed};

use crate::Heard;
use crate::dialogue_kind::DialogueKind;
use crate::statuses::{Statuses, full_figures};
use zvt_bmp::Fields;
use zvt_msg::PtMessage;

/// The first message after the command.
pub(crate) fn meaning_when_asked(
    dialogue_kind: DialogueKind,
    stop_wished: bool,
    message: &PtMessage<'_>,
) -> Heard
    ensures { result ≡ meaning_when_asked dialogue_kind stop_wished (value_of message.now) }
{
    match message {
        PtMessage::Ack if dialogue_kind.is_display() => Heard::Done,
        PtMessage::Ack => Heard::Begun { stop: stop_wished },
        PtMessage::Nack(error_code) if *error_code != 0 => Heard::Declined {
            code: *error_code,
            number: None,
        },
        PtMessage::Other => Heard::Stray,
        _ => Heard::Unclear,
    }
}

/// A message after the acknowledgement. `none` is the result code by which the terminal reports to an enquiry that it has no
/// transaction.
pub(crate) fn meaning_when_begun(
    dialogue_kind: DialogueKind,
    none: u8,
    statuses: Statuses,
    message: &PtMessage<'_>,
) -> Heard
    ensures { result ≡ meaning_when_begun dialogue_kind none statuses (value_of message.now) }
{
    match message {
        // It is meant for `06 B0`, or for nothing: which of them can't be seen here, and neither ends the dialogue.
        PtMessage::Ack | PtMessage::Nack(_) | PtMessage::Other => Heard::Stray,
        PtMessage::Intermediate(status) => Heard::Note(*status),
        PtMessage::Line(_) => Heard::Line,
        PtMessage::Block(_) => Heard::Block,
        PtMessage::Status(_) => Heard::Seen,
        PtMessage::Completion => meaning_of_completion(dialogue_kind, statuses),
        PtMessage::Abort(result_code) => meaning_of_abort(
            dialogue_kind,
            none,
            statuses,
            *result_code,
        ),
    }
}

fn meaning_of_completion(dialogue_kind: DialogueKind, statuses: Statuses) -> Heard
    ensures { result ≡ meaning_of_completion dialogue_kind statuses }
{
    match dialogue_kind {
        DialogueKind::Payment | DialogueKind::Reversal => transaction_completed(statuses),
        DialogueKind::Enquiry => enquiry_completed(statuses.last),
        DialogueKind::Registration | DialogueKind::EndOfDay => service_completed(statuses),
        DialogueKind::Display => Heard::Unclear,
    }
}

fn transaction_completed(statuses: Statuses) -> Heard
    ensures { result ≡ transaction_completed statuses statuses.last }
{
    let Some(status) = statuses.last else {
        return Heard::Unclear;
    };
    match status.result {
        None => Heard::Unclear,
        Some(0) => match full_figures(&status) {
            Some(figures) => Heard::Approved(figures),
            None => Heard::Unclear,
        },
        Some(result_code) => statuses.declined_unless_approved(result_code),
    }
}

fn enquiry_completed(last: Option<Fields>) -> Heard
    ensures { result ≡ enquiry_completed last }
{
    let Some(status) = last else {
        return Heard::Unclear;
    };
    let (Some(result_code), Some(trace)) = (status.result, status.trace) else {
        return Heard::Unclear;
    };
    if result_code != 0 {
        return Heard::Told {
            number: trace,
            approved: None,
            code: result_code,
        };
    }
    match full_figures(&status) {
        None => Heard::Unclear,
        approved => Heard::Told {
            number: trace,
            approved,
            code: result_code,
        },
    }
}

fn service_completed(statuses: Statuses) -> Heard
    ensures { result ≡ service_completed statuses statuses.last }
{
    match statuses.last.and_then(|status| status.result) {
        None | Some(0) => Heard::Done,
        Some(result_code) => statuses.declined(result_code),
    }
}

/// An abort by the terminal.
fn meaning_of_abort(
    dialogue_kind: DialogueKind,
    none: u8,
    statuses: Statuses,
    result_code: Option<u8>,
) -> Heard
    ensures { result ≡ meaning_of_abort dialogue_kind none statuses result_code }
{
    let Some(result_code) = result_code else {
        return Heard::Unclear;
    };
    if result_code == 0 {
        return Heard::Unclear;
    }
    match dialogue_kind {
        DialogueKind::Payment | DialogueKind::Reversal => statuses.declined_unless_approved(
            result_code,
        ),
        DialogueKind::Enquiry => enquiry_aborted(none, statuses.last, result_code),
        DialogueKind::Registration | DialogueKind::EndOfDay => statuses.declined(result_code),
        DialogueKind::Display => Heard::Unclear,
    }
}

fn enquiry_aborted(none: u8, last: Option<Fields>, result_code: u8) -> Heard
    ensures { result ≡ enquiry_aborted none last result_code }
{
    if last.is_none() && result_code == none {
        Heard::Told {
            number: 0,
            approved: None,
            code: result_code,
        }
    } else {
        Heard::Unclear
    }
}
