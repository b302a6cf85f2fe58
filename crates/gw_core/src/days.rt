//! Ends of day: which one a terminal serves, by its key, and how many are served.
ghost use Rattle.std.specs.Prelude.{◌≡◌, ◌≤◌, ℕ, Some, length};
ghost use Rattle.gw_owes.specs.Days.{asks_day, day_served, days_served, has_key, is_day, is_day_again, is_day_key, is_day_period, is_day_served, serves_day};

use crate::kept_replies::own_key;
use crate::terminals::Core;
use gw_base::Key;
use gw_owes::{Service, Standing, Terminal};
use sale_msg::{Header, Period, SaleRequest};

/// Whether a request with this header has this key.
fn has_key(key: &Key, header: &Header) -> bool
    ensures { result ≡ has_key key.now (Some header.now) }
{
    match own_key(header) {
        None => false,
        Some(own) => key.cmp(&own).is_eq(),
    }
}

/// Whether a terminal of this standing serves the end of day of this key.
pub(crate) fn serves_day(key: &Key, standing: &Standing) -> bool
    ensures { result ≡ serves_day key.now standing.now }
{
    match standing {
        Standing::Serving { service, .. } => match service {
            Service::EndOfDay { header, .. } => has_key(key, header),
            Service::Transaction { .. } | Service::Display { .. } => false,
        },
        Standing::Unlinked { .. }
        | Standing::Registering
        | Standing::Enquiring
        | Standing::Ready { .. }
        | Standing::Aside { .. } => false,
    }
}

/// Whether the key of a request with this header is that of the end of day that the terminal serves.
pub(crate) fn is_day_key(header: &Header, terminal: &Terminal) -> bool
    ensures { (number : ℕ) → result ≡ is_day_key header.now (Some (record { number = number; terminal = terminal.now })) }
{
    match own_key(header) {
        None => false,
        Some(key) => serves_day(&key, &terminal.standing),
    }
}

/// Whether this reconciliation type is that of an end of day.
fn is_day_period(period: Period) -> bool
    ensures { result ≡ is_day_period period }
{
    match period {
        Period::AcquirerReconciliation => true,
        Period::SaleReconciliation
        | Period::AcquirerSynchronisation
        | Period::PreviousReconciliation => false,
    }
}

/// Whether an end of day is asked for.
pub(crate) fn asks_day(request: &SaleRequest) -> bool
    ensures { result ≡ asks_day request.now }
{
    match request {
        SaleRequest::Reconciliation(period) => is_day_period(*period),
        SaleRequest::Login
        | SaleRequest::Logout
        | SaleRequest::Payment(_)
        | SaleRequest::Reversal(_)
        | SaleRequest::Abort(_)
        | SaleRequest::Status(_)
        | SaleRequest::Display(_)
        | SaleRequest::Print(_)
        | SaleRequest::Diagnosis => false,
    }
}

/// Whether the request asks again for the end of day that the terminal serves.
pub(crate) fn is_day_again(header: &Header, request: &SaleRequest, terminal: &Terminal) -> bool
    ensures { (number : ℕ) → result ≡ is_day_again header.now request.now (Some (record { number = number; terminal = terminal.now })) }
{
    is_day_key(header, terminal) && asks_day(request)
}

/// Whether a terminal of this standing serves an end of day.
fn is_serving_day(standing: &Standing) -> bool
    ensures { result ≡ is_day (day_served standing.now) }
{
    match standing {
        Standing::Serving { service, .. } => match service {
            Service::EndOfDay { .. } => true,
            Service::Transaction { .. } | Service::Display { .. } => false,
        },
        Standing::Unlinked { .. }
        | Standing::Registering
        | Standing::Enquiring
        | Standing::Ready { .. }
        | Standing::Aside { .. } => false,
    }
}

/// How many of these terminals serve an end of day.
pub(crate) fn days_served(terminals: &[Terminal]) -> usize
    ensures count { result ≡ days_served terminals.now }
    ensures few { result ≤ length terminals.now }
{
    let mut days = 0;
    for terminal in terminals {
        if is_serving_day(&terminal.standing) {
            days += 1;
        }
    }
    days
}

impl Core {
    /// Whether the key is that of an end of day that is served.
    pub(crate) fn is_day_served(&self, key: &Key) -> bool
        ensures { result ≡ is_day_served self.now key.now }
    {
        match self.named(&key.poi) {
            None => false,
            Some(pt) => serves_day(key, &self.terminal(pt).standing),
        }
    }
}
