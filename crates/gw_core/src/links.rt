//! What the loss of its link leaves of a terminal, and owes.
ghost use Rattle.std.specs.Prelude.{◌≡◌, ◌+◌, IfSome, List, ℕ, Some};
ghost use Rattle.gw_base.specs.Moment.{IsMoment, moment_of};
ghost use Rattle.gw_base.specs.declared.setup.Setup.{Setup};
ghost use Rattle.jrn_record.specs.declared.records.Record.{Record};
ghost use Rattle.gw_owes.specs.Core.{Core as CoreValue};
ghost use Rattle.gw_owes.specs.Terminals.{asker_of_lost, asker_of_unfinished, reply_to_lost, reply_to_unfinished, unlinks, with_terminal};
ghost use Rattle.gw_core.specs.IsRow.{IsRow, IsWantedAt, alone, known_with};
ghost use Rattle.gw_core.specs.ReplyOf.{AreSameReplies};

use crate::act::Act;
use crate::refusal::{display_reply, refused};
use crate::serving::send_to;
use gw_base::Condition;
use gw_owes::{Service, Standing, Terminal};
use sale_reply::SaleReply;

/// The reply to what was served and isn't finished: none to a payment or a reversal, whose key stays open.
fn reply_to_unfinished(service: Service) -> Option<SaleReply<'static>>
    ensures { AreSameReplies result (reply_to_unfinished service) }
{
    match service {
        Service::Transaction { .. } => None,
        Service::EndOfDay { header, .. } => Some(refused(&header, Condition::UnavailableDevice)),
        Service::Display { header, results } => display_reply(&header, results),
    }
}

/// The reply that the loss of a link owes, by the terminal's standing.
fn reply_to_lost(standing: Standing) -> Option<SaleReply<'static>>
    ensures { AreSameReplies result (reply_to_lost standing) }
{
    match standing {
        Standing::Serving { service, .. } => reply_to_unfinished(service),
        Standing::Unlinked { .. }
        | Standing::Registering
        | Standing::Enquiring
        | Standing::Ready { .. }
        | Standing::Aside { .. } => None,
    }
}

/// The till of what was served: that of a payment or a reversal is remembered, since its key stays open.
fn asker_of_unfinished(asker: Option<u64>, service: &Service) -> Option<u64>
    ensures { result ≡ asker_of_unfinished asker service.now }
{
    match service {
        Service::Transaction { .. } => asker,
        Service::EndOfDay { .. } | Service::Display { .. } => None,
    }
}

/// The till that is remembered once the link is lost.
fn asker_of_lost(asker: Option<u64>, standing: &Standing) -> Option<u64>
    ensures { result ≡ asker_of_lost asker standing.now }
{
    match standing {
        Standing::Serving { service, .. } => asker_of_unfinished(asker, service),
        Standing::Unlinked { .. }
        | Standing::Registering
        | Standing::Enquiring
        | Standing::Ready { .. }
        | Standing::Aside { .. } => asker,
    }
}

/// A terminal's link isn't there: it is due in five seconds, and the till of an end of day or a display that it served gets its reply.
pub(crate) fn unlink(terminal: &mut Terminal, now: i64) -> Option<Act<'static>>
    requires { IsMoment now }
    ensures row { (setup : Setup) (kept : List Record) (core : CoreValue) (pt : ℕ)
        → IsRow kept (unlinks (known_with setup kept core (moment_of now)) pt terminal.old) (with_terminal core pt terminal.new) (alone result) }
    ensures wanted { (pt : ℕ) → IfSome result (IsWantedAt pt) }
    ensures settings { terminal.new.pt ≡ terminal.old.pt }
{
    let till = terminal.asker;
    terminal.asker = asker_of_lost(till, &terminal.standing);
    let standing = std::mem::replace(
        &mut terminal.standing,
        Standing::Unlinked {
            due: Some(now.unsigned_abs() + 5),
        },
    );
    terminal.talk = None;
    terminal.awaited = 0;
    send_to(till, reply_to_lost(standing))
}
