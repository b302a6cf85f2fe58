//! What the ledger keeps of a terminal.
ghost use Rattle.std.specs.Prelude.{◌≡◌, ◌<◌, Some, None, max};
ghost use Rattle.gw_base.specs.declared.currency.Currency.{Currency};
ghost use Rattle.gw_ledger.specs.declared.account.Account.{Account};
ghost use Rattle.gw_ledger.specs.declared.account.Sums.{Sums};
ghost use Rattle.gw_ledger.specs.Sums.{ordinal, totals_with};
ghost use Rattle.gw_ledger.specs.Steps.{HasRoomFor, sums_added, sums_with};
ghost use Rattle.gw_ledger.specs.Table.{IsTable, value_at};
ghost use Rattle.gw_ledger.specs.Tables.{account_in_row, no_sums, poi_cmp, sums_in_row};

use crate::table;
use crate::totals::Totals;
use gw_base::{Currency, Ident};
use jrn_record::{Deal, Intent, Outcome};

/// A terminal as its records leave it.
#[derive(Clone, Copy)]
pub struct Account {
    /// The slot of its open Intent.
    pub unresolved: Option<u32>,
    /// The greatest trace number in its records.
    pub trace: u32,
    /// How many records there were up to its last Settled.
    pub settled: u32,
}

/// The count and the minor units of approved payments, and of approved reversals.
#[derive(Clone, Copy)]
pub struct Sums {
    pub debit: (u32, u64),
    pub reversed: (u32, u64),
}

/// A terminal, with the sums since its last Settled by currency.
#[derive(Clone, Copy)]
pub struct Desk {
    pub account: Account,
    pub sums: [Sums; 9],
}

/// The index of the currency's sums.
pub fn ordinal_of(currency: Currency) -> usize
    ensures value { result ≡ ordinal currency }
    ensures bound { result < 9 }
{
    match currency {
        Currency::Eur => 0,
        Currency::Chf => 1,
        Currency::Gbp => 2,
        Currency::Usd => 3,
        Currency::Dkk => 4,
        Currency::Sek => 5,
        Currency::Nok => 6,
        Currency::Pln => 7,
        Currency::Czk => 8,
    }
}

/// The row of a terminal, or that of one without records.
pub fn desk_in(desks: &[(Ident<40>, Desk)], poi: &Ident<40>) -> Desk
    requires { IsTable poi_cmp desks.now }
    ensures account { result.account ≡ account_in_row (value_at poi_cmp desks.now poi.now) }
    ensures sums { (currency : Currency) → sums_in_row (Some result) currency ≡ sums_in_row (value_at poi_cmp desks.now poi.now) currency }
{
    match table::get(desks, poi) {
        Some(desk) => desk,
        None => Desk {
            account: Account {
                unresolved: None,
                trace: 0,
                settled: 0,
            },
            sums: [Sums {
                debit: (0, 0),
                reversed: (0, 0),
            }; 9],
        },
    }
}

/// The terminal after an Intent at this slot.
pub fn asked(desk: Desk, slot: u32, before: u32) -> Desk
    ensures account { result.account ≡ record { unresolved = Some slot; trace = max desk.account.trace before; settled = desk.account.settled } }
    ensures sums { result.sums ≡ desk.sums }
{
    let sums = desk.sums;
    Desk {
        account: Account {
            unresolved: Some(slot),
            trace: desk.account.trace.max(before),
            settled: desk.account.settled,
        },
        sums,
    }
}

/// The terminal after a Settled, with so many records up to it.
pub fn closed(desk: Desk, settled: u32) -> Desk
    ensures account { result.account ≡ record { unresolved = desk.account.unresolved; trace = desk.account.trace; settled = settled } }
    ensures sums { (currency : Currency) → sums_in_row (Some result) currency ≡ no_sums }
{
    let none = Sums {
        debit: (0, 0),
        reversed: (0, 0),
    };
    let sums = [none; 9];
    Desk {
        account: Account {
            unresolved: desk.account.unresolved,
            trace: desk.account.trace,
            settled,
        },
        sums,
    }
}

/// The terminal's totals in a currency.
pub fn totals_at(desk: &Desk, currency: Currency) -> Totals
    ensures { result ≡ totals_with currency (sums_in_row (Some desk.now) currency) }
{
    let sums = &desk.sums[ordinal_of(currency)];
    Totals {
        debit: sums.debit,
        reversed: sums.reversed,
        currency,
    }
}

/// The terminal after an Outcome of this Intent.
pub fn resolved(desk: Desk, intent: &Intent, outcome: &Outcome) -> Desk
    requires counts { (currency : Currency) → HasRoomFor outcome.now.amount (sums_in_row (Some desk) currency) }
    ensures account { result.account ≡ record { unresolved = None; trace = max desk.account.trace outcome.now.number; settled = desk.account.settled } }
    ensures sums { (currency : Currency) → sums_in_row (Some result) currency ≡ sums_with intent.now outcome.now currency (sums_in_row (Some desk) currency) }
{
    let mut sums = desk.sums;
    if outcome.approved {
        let at = ordinal_of(intent.currency);
        sums[at] = added(sums[at], intent.what, outcome.amount);
    }
    Desk {
        account: Account {
            unresolved: None,
            trace: desk.account.trace.max(outcome.number),
            settled: desk.account.settled,
        },
        sums,
    }
}

/// The sums with one more approved payment or reversal.
fn added(sums: Sums, what: Deal, amount: u64) -> Sums
    requires { HasRoomFor amount sums }
    ensures { result ≡ sums_added what amount sums }
{
    match what {
        Deal::Payment => Sums {
            debit: (sums.debit.0 + 1, sums.debit.1 + amount),
            reversed: sums.reversed,
        },
        Deal::Reversal => Sums {
            debit: sums.debit,
            reversed: (sums.reversed.0 + 1, sums.reversed.1 + amount),
        },
    }
}
