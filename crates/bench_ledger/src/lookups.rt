//! Looks things up in a ledger, and prints what that takes.
use crate::each;
use crate::journal::{TERMINALS, key_of, poi_of};
use anyhow::{Context, ensure};
use arrayvec::ArrayVec;
use gw_base::{Currency, Ident, Key, transaction_text};
use gw_ledger::Ledger;
use std::rt::Clock;
use std::time::Instant;

/// How many payments are looked for in turn, again and again: so what is measured is the search, and not how long memory takes that
/// no look-up has read before.
const ASKED: u32 = 64;

/// The number of the payment that is looked for at this place of a turn, far from that at the place before.
fn number_at(place: u32, payments: u32) -> u32 {
    place.wrapping_mul(7919) % payments.max(1)
}

/// How many look-ups so many turns and one more make.
fn look_ups(turns: u32) -> u64 {
    u64::from(turns)
        .wrapping_add(1)
        .wrapping_mul(u64::from(ASKED))
}

/// Nanoseconds of finding a payment by its key.
fn time_find<R: AllocGlobal + Clock>(
    rt: &R,
    ledger: &Ledger,
    rounds: u32,
    payments: u32,
) -> anyhow::Result<u64> {
    let mut keys: Vec<Key> = Vec::new(rt.alloc());
    for place in 0..ASKED {
        keys.push(key_of(number_at(place, payments)).context("key")?)?;
    }
    let start = Instant::now(rt)?;
    for _ in 0..=rounds / ASKED {
        for key in &keys {
            ensure!(ledger.find(key).is_some(), "a payment is not found");
        }
    }
    Ok(each(start.elapsed(rt)?.as_nanos(), look_ups(rounds / ASKED)))
}

/// The text of the payment with this number.
fn text_of(number: u32) -> ArrayVec<u8, 24> {
    transaction_text(
        (number / TERMINALS).wrapping_add(1),
        17,
        number.wrapping_mul(2),
    )
}

/// Nanoseconds of finding a payment by its text.
fn time_named<R: AllocGlobal + Clock>(
    rt: &R,
    ledger: &Ledger,
    rounds: u32,
    payments: u32,
) -> anyhow::Result<u64> {
    let mut texts: Vec<(Ident<40>, ArrayVec<u8, 24>)> = Vec::new(rt.alloc());
    for place in 0..ASKED {
        let number = number_at(place, payments);
        texts.push((poi_of(number).context("terminal")?, text_of(number)))?;
    }
    let start = Instant::now(rt)?;
    for _ in 0..=rounds / ASKED {
        for (poi, text) in &texts {
            ensure!(
                ledger.named(poi, text.as_slice()).is_some(),
                "a text names no payment"
            );
        }
    }
    Ok(each(start.elapsed(rt)?.as_nanos(), look_ups(rounds / ASKED)))
}

/// Nanoseconds of the last payment of a till at a terminal.
fn time_last_of<R: AllocGlobal + Clock>(
    rt: &R,
    ledger: &Ledger,
    rounds: u32,
    payments: u32,
) -> anyhow::Result<u64> {
    let key = key_of(number_at(rounds, payments)).context("key")?;
    let start = Instant::now(rt)?;
    for _ in 0..rounds {
        ensure!(
            ledger.last_of(&key.sale, &key.poi).is_some(),
            "no last payment"
        );
    }
    Ok(each(start.elapsed(rt)?.as_nanos(), u64::from(rounds)))
}

/// Nanoseconds of the last trace number of a terminal.
fn time_last_number<R: Clock>(
    rt: &R,
    ledger: &Ledger,
    rounds: u32,
    payments: u32,
) -> anyhow::Result<u64> {
    let poi = poi_of(number_at(rounds, payments)).context("terminal")?;
    let start = Instant::now(rt)?;
    for _ in 0..rounds {
        ensure!(ledger.last_number(&poi) > 0, "no trace number");
    }
    Ok(each(start.elapsed(rt)?.as_nanos(), u64::from(rounds)))
}

/// Nanoseconds of the totals of a terminal.
fn time_totals<R: Clock>(
    rt: &R,
    ledger: &Ledger,
    rounds: u32,
    payments: u32,
) -> anyhow::Result<u64> {
    let poi = poi_of(number_at(rounds, payments)).context("terminal")?;
    let start = Instant::now(rt)?;
    for _ in 0..rounds {
        ensure!(ledger.totals(&poi, Currency::Eur).debit.0 > 0, "no totals");
    }
    Ok(each(start.elapsed(rt)?.as_nanos(), u64::from(rounds)))
}

/// Prints what so many look-ups of each kind take, in a ledger of payments.
pub fn print_lookups<R: AllocGlobal + Print + Clock>(
    rt: &R,
    ledger: &Ledger,
    rounds: u32,
) -> anyhow::Result<()> {
    let payments = ledger.records() / 2;
    let find = time_find(rt, ledger, rounds, payments)?;
    let named = time_named(rt, ledger, rounds, payments)?;
    println!(rt; "find: {find} ns")?;
    println!(rt; "named: {named} ns")?;
    let last_of = time_last_of(rt, ledger, rounds, payments)?;
    let last_number = time_last_number(rt, ledger, rounds, payments)?;
    let totals = time_totals(rt, ledger, rounds, payments)?;
    println!(rt; "last_of: {last_of} ns")?;
    println!(rt; "last_number: {last_number} ns")?;
    println!(rt; "totals: {totals} ns")?;
    Ok(())
}
