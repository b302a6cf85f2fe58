//! The stop of what a terminal serves: a till's Abort wishes it, and `06 B0` is sent once.
ghost use Rattle.std.specs.Prelude.{◌≡◌, ℕ, List, IfSome, Some, option_map, slice_get};
ghost use Rattle.gw_base.specs.declared.setup.Setup.{Setup};
ghost use Rattle.jrn_record.specs.declared.records.Record.{Record};
ghost use Rattle.zvt_talk.specs.TalkSteps.{talk_after_stop_wished};
ghost use Rattle.gw_ledger.specs.Fold.{found_of};
ghost use Rattle.gw_owes.specs.Core.{Core as CoreValue};
ghost use Rattle.gw_owes.specs.Diagnosis.{named_terminal};
ghost use Rattle.gw_owes.specs.Stops.{is_service_of, serves_any, serves_entry, serves_found, serves_key, wishes_stop};
ghost use Rattle.gw_owes.specs.Terminals.{with_terminal};
ghost use Rattle.gw_core.specs.Beginning.{sends_stop};
ghost use Rattle.gw_core.specs.IsRow.{IsRow, IsWantedAt, alone, known_with};
ghost use Rattle.gw_core.specs.ReplyOf.{IsServedBy};

use crate::act::Act;
use crate::days::serves_day;
use crate::kept_replies::find;
use crate::serving::stop;
use crate::terminals::Core;
use gw_base::Key;
use gw_ledger::{Entry, Found, Ledger};
use gw_owes::{Service, Standing, Terminal};
use zvt_talk::Talk;

/// Whether the service is the payment or the reversal of this entry.
fn is_service_of(entry: &Entry, service: &Service) -> bool
    ensures { result ≡ is_service_of entry.now service.now }
{
    match service {
        Service::Transaction { slot } => entry.slot == *slot,
        Service::EndOfDay { .. } | Service::Display { .. } => false,
    }
}

/// Whether a terminal of this standing serves the entry.
fn serves_entry(entry: &Entry, standing: &Standing) -> bool
    ensures { result ≡ serves_entry entry.now standing.now }
{
    match standing {
        Standing::Serving { service, .. } => is_service_of(entry, service),
        Standing::Unlinked { .. }
        | Standing::Registering
        | Standing::Enquiring
        | Standing::Ready { .. }
        | Standing::Aside { .. } => false,
    }
}

/// Whether a terminal of this standing serves what was found, which is open.
fn serves_found(standing: &Standing, found: &Found) -> bool
    ensures { result ≡ serves_found standing.now found.now }
{
    match found {
        Found::Entry(entry) => entry.result.is_none() && serves_entry(entry, standing),
        Found::Closed(_) => false,
    }
}

/// Whether a terminal of this standing serves what the records have under this key.
fn serves_recorded(ledger: &Ledger, key: &Key, standing: &Standing) -> bool
    ensures { result ≡ serves_any standing.now (found_of ledger.now.records key.now) }
{
    match find(ledger, key) {
        None => false,
        Some(found) => serves_found(standing, &found),
    }
}

/// Whether the terminal serves the payment, the reversal or the end of day of this key.
fn serves_key(ledger: &Ledger, key: &Key, terminal: &Terminal) -> bool
    ensures { result ≡ serves_key ledger.now.records key.now terminal.now }
{
    serves_recorded(ledger, key, &terminal.standing) || serves_day(key, &terminal.standing)
}

/// The number of the terminal that serves the payment, the reversal or the end of day of this key.
pub(crate) fn serving_terminal(core: &Core, ledger: &Ledger, key: &Key) -> Option<u16>
    ensures { IsServedBy ledger.now.records key.now (named_terminal core.now key.now.poi) result }
{
    match core.named(&key.poi) {
        None => None,
        Some(pt) => {
            if serves_key(ledger, key, core.terminal(pt)) {
                Some(pt)
            } else {
                None
            }
        }
    }
}

/// A stop is wished in the dialogue that runs. True where it is to be sent now.
fn wish(talk: &mut Option<Talk>) -> bool
    ensures sent { result ≡ sends_stop talk.old }
    ensures next { talk.new ≡ option_map talk_after_stop_wished talk.old }
{
    match talk {
        None => false,
        Some(talk) => talk.abort(),
    }
}

/// A stop is wished of what a terminal serves. It is sent now where the dialogue is begun, and once; where its command isn't
/// acknowledged yet it is sent as soon as that is.
pub(crate) fn wish_stop(terminal: &mut Terminal, pt: u16) -> Option<Act<'static>>
    ensures row { (setup : Setup) (kept : List Record) (core : CoreValue) (moment : ℕ) → slice_get core.terminals pt ≡ Some terminal.old
        → IsRow kept (wishes_stop (known_with setup kept core moment) pt terminal.old terminal.old.talk) (with_terminal core pt terminal.new) (alone result) }
    ensures wanted { IfSome result (IsWantedAt pt) }
    ensures settings { terminal.new.pt ≡ terminal.old.pt }
    ensures standing { terminal.new.standing ≡ terminal.old.standing }
{
    if wish(&mut terminal.talk) {
        stop(terminal, pt)
    } else {
        None
    }
}
