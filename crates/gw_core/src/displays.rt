//! A Display on a terminal: where it begins, what the terminal is asked to show, and the results that its till gets.
ghost use Rattle.std.specs.Prelude.{◌≡◌, ◌≤◌, ℕ, List, None, Option, IfOk, IfSome, length, option_map, position};
ghost use Rattle.gw_base.specs.Moment.{IsMoment, moment_of};
ghost use Rattle.gw_base.specs.declared.condition.Condition.TheVariants.{UnavailableDevice};
ghost use Rattle.gw_base.specs.Setup.{IsPt};
ghost use Rattle.gw_base.specs.declared.setup.Setup.{Setup};
ghost use Rattle.jrn_record.specs.declared.records.Record.{Record};
ghost use Rattle.sale_reply.specs.declared.reply.Shown.{Shown as TheShown};
ghost use Rattle.gw_owes.specs.Core.{Core as CoreValue};
ghost use Rattle.gw_owes.specs.Diagnosis.{named_terminal};
ghost use Rattle.gw_owes.specs.Displays.{display_ends, display_result, is_customer_result, serving_display, shows_in, with_customer_verdict};
ghost use Rattle.gw_owes.specs.Replies.{refused_results};
ghost use Rattle.gw_owes.specs.Row.{Known};
ghost use Rattle.gw_owes.specs.Terminals.{with_terminal};
ghost use Rattle.gw_core.specs.Beginning.{IsShowing, MayShow};
ghost use Rattle.gw_core.specs.IsRow.{IsRow, IsWantedAt, alone, known_with};
ghost use Rattle.gw_core.specs.ReplyOf.{AreSameReplies, IsBegunOrRefused, IsGivenToDisplay, refused_or_begun};

use crate::act::{Act, Acts};
use crate::beginning::last_number;
use crate::handling::ask;
use crate::refusal::{display_reply, refusal, refused_display, refused_results, success};
use crate::serving::{done, send_to, was_stopped};
use crate::steps::{is_out_of_service, is_ready};
use crate::terminals::Core;
use crate::till::{Given, replied};
use gw_base::Condition;
use gw_owes::{Service, Standing, Terminal};
use sale_msg::{Header, Outputs, SaleRequest};
use sale_reply::{OutputResults, Shown, Verdict};
use std::alloc::{AllocError, Global};
use xlate::{condition_of, show_of};
use zvt_talk::Heard;

/// Why a Display is refused at a terminal of this standing; `None` where it begins.
fn refused_at(outputs: &Outputs, terminal: &Terminal) -> Option<Condition>
    ensures { (number : ℕ) → display_result outputs.now (Some (record { number = number; terminal = terminal.now })) ≡ refused_or_begun result }
{
    if show_of(outputs).is_none() {
        return Some(Condition::UnavailableDevice);
    }
    if is_out_of_service(&terminal.standing) {
        return Some(Condition::UnavailableDevice);
    }
    if is_ready(&terminal.standing) {
        return None;
    }
    // No request waits for a terminal that serves another.
    Some(Condition::Busy)
}

/// The terminal at which a Display begins, or why it is refused.
fn begun_or_refused(core: &Core, header: &Header, outputs: &Outputs) -> Result<u16, Condition>
    ensures { IsBegunOrRefused (named_terminal core.now header.now.poi) (display_result outputs.now (named_terminal core.now header.now.poi)) result }
{
    match core.named(&header.poi) {
        None => Err(Condition::UnavailableDevice),
        Some(pt) => match refused_at(outputs, core.terminal(pt)) {
            None => Ok(pt),
            Some(condition) => Err(condition),
        },
    }
}

/// What a Display gets: its reply, or that it begins, with the results that its till gets then, in which no output is shown yet.
pub(crate) fn display(
    alloc: Global,
    core: &Core,
    header: Header,
    outputs: Outputs,
) -> Result<Given, AllocError>
    requires { length outputs ≤ 16 }
    ensures { (known : Known) → known.core ≡ core.now → IfOk result (IsGivenToDisplay header outputs (named_terminal core.now header.poi)) }
{
    match begun_or_refused(core, &header, &outputs) {
        Ok(pt) => {
            let results = refused_results(alloc, Condition::UnavailableDevice, outputs.as_slice())?;
            Ok(Given::Begins {
                pt,
                header,
                request: SaleRequest::Display(outputs),
                results,
            })
        }
        Err(condition) => {
            // A reply of class Device has a body of its own, also where it refuses.
            let reply = refused_display(alloc, condition, &header, outputs.as_slice())?;
            Ok(replied(reply))
        }
    }
}

/// A terminal that is ready is asked to show the outputs, and serves the display for this till.
pub(crate) fn begin_display(
    terminal: &mut Terminal,
    pt: u16,
    till: u64,
    header: &Header,
    outputs: &Outputs,
    results: Option<OutputResults>,
    now: i64,
) -> Acts<'static>
    requires moment { IsMoment now }
    requires settings { IsPt terminal.old.pt }
    requires begins { MayShow outputs.now terminal.old }
    requires prepared { results ≡ refused_results UnavailableDevice outputs.now }
    ensures row { (setup : Setup) (kept : List Record) (core : CoreValue)
        → IsRow kept (shows_in (known_with setup kept core (moment_of now)) pt till header.now outputs.now terminal.old terminal.old.standing) (with_terminal core pt terminal.new) result }
    ensures none_kept { result.keep ≡ None }
    ensures wanted { IfSome result.act (IsWantedAt pt) }
    ensures settings { terminal.new.pt ≡ terminal.old.pt }
{
    let last = last_number(&terminal.standing);
    let command = match show_of(outputs) {
        Some(command) => command,
        // The steps have found what to show.
        None => unreachable!(),
    };
    let service = Service::Display {
        header: *header,
        results,
    };
    let act = ask(
        terminal,
        pt,
        command,
        Standing::Serving { service, last },
        now,
    );
    terminal.asker = Some(till);
    Acts {
        keep: None,
        act: Some(act),
    }
}

/// Whether the result is that of an output for the customer's display.
fn is_customer_result(shown: &Shown) -> bool
    ensures { result ≡ is_customer_result shown.now }
{
    shown.device.as_bytes() == b"CustomerDisplay".as_slice()
}

/// The index of the first result of an output for the customer's display.
fn customer_result(results: &[Shown]) -> Option<usize>
    ensures { result ≡ position is_customer_result results.now }
{
    results.iter().position(|shown| is_customer_result(shown))
}

/// The results once the terminal's display has this verdict, which is that of the first output for the customer's display.
fn set_verdict(results: &mut OutputResults, verdict: Verdict)
    ensures { results.new ≡ with_customer_verdict verdict results.old }
{
    if let Some(index) = customer_result(results.as_slice()) {
        results.set_verdict(index, verdict);
    }
}

/// The same of the results that a till asked for.
fn with_customer_verdict(results: Option<OutputResults>, verdict: Verdict) -> Option<OutputResults>
    ensures { result ≡ option_map (with_customer_verdict verdict) results }
{
    match results {
        None => None,
        Some(mut shown) => {
            set_verdict(&mut shown, verdict);
            Some(shown)
        }
    }
}

/// The results of the display that a terminal serves, which becomes ready.
fn taken_results(standing: &mut Standing, last: u32) -> Option<OutputResults>
    requires { IsShowing standing.old }
    ensures results { (header : Header) (results : Option (List TheShown)) (before : ℕ) → standing.old ≡ Standing.Serving (Service.Display header results) before → result ≡ results }
    ensures ready { standing.new ≡ Standing.Ready last }
{
    match std::mem::replace(standing, Standing::Ready { last }) {
        Standing::Serving {
            service: Service::Display { results, .. },
            ..
        } => results,
        _ => unreachable!(),
    }
}

/// A display ends with this verdict: its till gets the results, where it asked for any.
fn end_display(
    terminal: &mut Terminal,
    header: Header,
    last: u32,
    verdict: Verdict,
) -> Option<Act<'static>>
    requires { IsShowing terminal.old.standing }
    ensures row { (setup : Setup) (kept : List Record) (core : CoreValue) (moment pt : ℕ) (results : Option (List TheShown))
        → terminal.old.standing ≡ Standing.Serving (Service.Display header results) last
        → IsRow kept (display_ends (known_with setup kept core moment) pt terminal.old last header results verdict) (with_terminal core pt terminal.new) (alone result) }
    ensures wanted { (pt : ℕ) → IfSome result (IsWantedAt pt) }
    ensures settings { terminal.new.pt ≡ terminal.old.pt }
{
    let results = taken_results(&mut terminal.standing, last);
    let act = send_to(
        terminal.asker,
        display_reply(&header, with_customer_verdict(results, verdict)),
    );
    done(terminal, Standing::Ready { last });
    act
}

/// What follows in a display: it is done or declined by the Ack or Nack of its command. Nothing of it is stopped, and nothing else is
/// heard in it.
pub(crate) fn serving_display(
    terminal: &mut Terminal,
    pt: u16,
    header: Header,
    last: u32,
    heard: Heard,
) -> Option<Act<'static>>
    requires { IsShowing terminal.old.standing }
    ensures row { (setup : Setup) (kept : List Record) (core : CoreValue) (moment : ℕ) (results : Option (List TheShown))
        → terminal.old.standing ≡ Standing.Serving (Service.Display header results) last
        → IsRow kept (serving_display (known_with setup kept core moment) pt terminal.old last header results heard) (with_terminal core pt terminal.new) (alone result) }
    ensures wanted { IfSome result (IsWantedAt pt) }
    ensures settings { terminal.new.pt ≡ terminal.old.pt }
{
    match heard {
        Heard::Done => end_display(terminal, header, last, success()),
        Heard::Declined { code, .. } => {
            let verdict = refusal(condition_of(code, was_stopped(&terminal.talk)));
            end_display(terminal, header, last, verdict)
        }
        Heard::Unclear => Some(Act::CutPt(pt)),
        Heard::Begun { .. } => None,
        Heard::Note(_)
        | Heard::Line
        | Heard::Block
        | Heard::Seen
        | Heard::Approved(_)
        | Heard::Told { .. }
        | Heard::Stray => None,
    }
}
