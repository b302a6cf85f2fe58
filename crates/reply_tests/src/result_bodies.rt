//! Result bodies by their words.
use gw_base::{Condition, Currency, Ident, Money};
use sale_reply::{PoiMark, Told};
use sale_values::Period;

/// What the terminal reported: trace number, receipt number, slot and moment.
fn mark_of(words: &[&str]) -> Option<PoiMark> {
    let [trace, receipt, slot, moment] = words else {
        return None;
    };
    Some(PoiMark {
        number: trace.parse().ok()?,
        receipt: receipt.parse().ok()?,
        slot: slot.parse().ok()?,
        moment: moment.parse().ok()?,
    })
}

/// An amount in euros.
fn money_of(word: &str) -> Option<Money> {
    Some(Money {
        minor: word.parse().ok()?,
        currency: Currency::Eur,
    })
}

/// An approved payment: what was asked for and what was paid, its transaction and its time stamp, and what was reported.
fn payment_approved(words: &[&str]) -> Option<Told> {
    let [requested, paid, transaction, stamp, mark @ ..] = words else {
        return None;
    };
    Some(Told::PaymentApproved {
        transaction: Ident::of(transaction.as_bytes())?,
        stamp: Ident::of(stamp.as_bytes())?,
        mark: mark_of(mark)?,
        requested: requested.parse().ok()?,
        paid: money_of(paid)?,
    })
}

/// A declined payment: its condition, its transaction and its time stamp, and what was reported.
fn payment_declined(words: &[&str]) -> Option<Told> {
    let [condition, transaction, stamp, mark @ ..] = words else {
        return None;
    };
    Some(Told::PaymentDeclined {
        transaction: Ident::of(transaction.as_bytes())?,
        stamp: Ident::of(stamp.as_bytes())?,
        mark: mark_of(mark)?,
        condition: Condition::from_name(condition.as_bytes())?,
    })
}

/// An approved reversal: its amount, and what was reported.
fn reversal_approved(words: &[&str]) -> Option<Told> {
    let [reversed, mark @ ..] = words else {
        return None;
    };
    Some(Told::ReversalApproved {
        mark: mark_of(mark)?,
        reversed: money_of(reversed)?,
    })
}

/// A declined reversal: its condition, and what was reported.
fn reversal_declined(words: &[&str]) -> Option<Told> {
    let [condition, mark @ ..] = words else {
        return None;
    };
    Some(Told::ReversalDeclined {
        mark: mark_of(mark)?,
        condition: Condition::from_name(condition.as_bytes())?,
    })
}

/// Totals in euros: their period, and the count and sum of payments and of reversals.
fn reconciled(words: &[&str]) -> Option<Told> {
    let [period, payments, paid, reversals, reversed] = words else {
        return None;
    };
    Some(Told::Reconciled {
        period: Period::from_name(period.as_bytes())?,
        currency: Currency::Eur,
        debit: (payments.parse().ok()?, paid.parse().ok()?),
        reversed: (reversals.parse().ok()?, reversed.parse().ok()?),
    })
}

/// The result body of these words.
pub fn result_body_of(word: &str, words: &[&str]) -> Option<Told> {
    match word {
        "payment_approved" => payment_approved(words),
        "payment_declined" => payment_declined(words),
        "reversal_approved" => reversal_approved(words),
        "reversal_declined" => reversal_declined(words),
        "reconciled" => reconciled(words),
        _ => None,
    }
}
