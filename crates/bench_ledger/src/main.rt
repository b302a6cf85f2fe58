//! Folds a journal, looks things up in it and adds payments to it.
//!
//! Without arguments it folds ten records, adds two more and prints what the ledger has. With the arguments RECORDS and
//! ROUNDS it folds so many and prints the nanoseconds of the fold for each record, of a plain pass over the same bodies
//! for each, of so many look-ups of each kind and of adding payments. With a third argument `settled` the records are
//! reconciliations, and it prints the peak of the memory alone.
#![tactic(auto)]

mod add;
mod journal;
mod lookups;

use add::add_payment;
use anyhow::{Context, anyhow, ensure};
use gw_base::{Bodies, Currency};
use gw_ledger::{Ledger, LedgerFault};
use journal::{payments, poi_of, reconciliations};
use lookups::print_lookups;
use std::alloc::Global;
use std::rt::{Clock, Files};
use std::time::Instant;
use std::{env, fs};

/// The most records of a ledger.
const MOST: u32 = 1000000;

/// The ledger of these bodies.
fn fold(alloc: Global, bodies: &Bodies) -> anyhow::Result<Ledger> {
    ensure!(bodies.as_slice().len() <= MOST as usize, "too many records");
    match Ledger::from_records(alloc, bodies) {
        Ok(ledger) => Ok(ledger),
        Err(LedgerFault::BadRecord(bad)) => Err(anyhow!(
            "the record at slot {} may not follow",
            bad.slot
        )),
        Err(LedgerFault::Memory) => Err(anyhow!("no memory")),
    }
}

/// Adds up the bytes of all bodies.
fn add_up(bodies: &[[u8; 255]]) -> u64 {
    let mut sum: u64 = 0;
    for body in bodies {
        for byte in body {
            sum = sum.wrapping_add(u64::from(*byte));
        }
    }
    sum
}

/// Nanoseconds for each of so many.
pub fn each(nanoseconds: u128, count: u64) -> u64 {
    u64::try_from(nanoseconds).unwrap_or(u64::MAX) / count.max(1)
}

/// The peak of the process's memory, as Linux reports it.
fn print_peak<R: Files + AllocGlobal + Print>(rt: &R) -> anyhow::Result<()> {
    let status = fs::read_to_string(rt, "/proc/self/status")?;
    for line in status.as_str().lines() {
        if let Some(peak) = line.strip_prefix("VmHWM:") {
            println!(rt; "peak of memory: {}", peak.trim())?;
        }
    }
    Ok(())
}

/// Folds the bodies so often, and prints what the fold and a plain pass take for each record.
fn print_fold<R: AllocGlobal + Print + Clock>(
    rt: &R,
    bodies: &Bodies,
    times: u64,
) -> anyhow::Result<()> {
    let count = times.wrapping_mul(bodies.as_slice().len() as u64);
    let start = Instant::now(rt)?;
    for _ in 0..times {
        let ledger = fold(rt.alloc(), bodies)?;
        ensure!(ledger.records() > 0, "no record is folded");
    }
    let folding = each(start.elapsed(rt)?.as_nanos(), count);
    let start = Instant::now(rt)?;
    let mut sum: u64 = 0;
    for _ in 0..times {
        sum = sum.wrapping_add(add_up(bodies.as_slice()));
    }
    let passing = each(start.elapsed(rt)?.as_nanos(), count);
    println!(rt; "from_records: {folding} ns a record; a plain pass: {passing} ns (sum {sum})")?;
    Ok(())
}

/// Adds so many payments after those of the ledger, and prints what each takes. Their keys come at the ends of those of 160 pairs of a
/// till and a terminal: 100,000 of them fill the block at each of these again and again, so that it is split some nine times.
fn print_adding<R: AllocGlobal + Print + Clock>(
    rt: &R,
    records: u32,
    payments_more: u32,
) -> anyhow::Result<()> {
    let before = records.saturating_sub(payments_more.saturating_mul(2)) / 2;
    let bodies = Bodies::new(payments(rt.alloc(), before.saturating_mul(2))?);
    let mut ledger = fold(rt.alloc(), &bodies)?;
    let mut nanoseconds: u128 = 0;
    for more in 0..payments_more {
        nanoseconds = nanoseconds.wrapping_add(add_payment(
            rt,
            &mut ledger,
            before.wrapping_add(more),
        )?);
    }
    let adding = each(nanoseconds, u64::from(payments_more));
    println!(rt; "accept with resolve: {adding} ns")?;
    Ok(())
}

/// The ledger of a short journal, to which a payment was added.
fn short_ledger<R: AllocGlobal + Clock>(rt: &R) -> anyhow::Result<Ledger> {
    let bodies = Bodies::new(payments(rt.alloc(), 10)?);
    let mut ledger = fold(rt.alloc(), &bodies)?;
    add_payment(rt, &mut ledger, 5)?;
    Ok(ledger)
}

/// Prints how many records there are, how many payments of them were approved, and the minor units of these.
fn print_tally<R: Print>(rt: &R, records: u32, payments: u32, units: u64) -> anyhow::Result<()> {
    println!(rt; "{records} records: payments {payments}, minor units {units}")?;
    Ok(())
}

/// Prints how many payments a terminal has approved, and its last trace number.
fn print_terminal<R: Print>(rt: &R, payments: u32, number: u32) -> anyhow::Result<()> {
    println!(rt; "terminal 05: payments {payments}, last trace number {number}")?;
    Ok(())
}

/// Prints what a short journal has.
fn print_short<R: AllocGlobal + Print + Clock>(rt: &R) -> anyhow::Result<()> {
    let ledger = short_ledger(rt)?;
    let tally = ledger.tally();
    print_tally(rt, ledger.records(), tally.approved, tally.sum)?;
    let poi = poi_of(5).context("terminal")?;
    let totals = ledger.totals(&poi, Currency::Eur);
    print_terminal(rt, totals.debit.0, ledger.last_number(&poi))
}

/// Folds reconciliations, and prints the peak of the memory.
fn print_settled<R: Files + AllocGlobal + Print>(rt: &R, records: u32) -> anyhow::Result<()> {
    let bodies = Bodies::new(reconciliations(rt.alloc(), records)?);
    let ledger = fold(rt.alloc(), &bodies)?;
    println!(rt; "{} reconciliations", ledger.records())?;
    print_peak(rt)
}

/// Folds payments, and prints the peak of the memory and what look-ups take.
fn print_found<R: Files + AllocGlobal + Print + Clock>(
    rt: &R,
    bodies: &Bodies,
    rounds: u32,
) -> anyhow::Result<()> {
    let ledger = fold(rt.alloc(), bodies)?;
    println!(rt; "{} records", ledger.records())?;
    print_peak(rt)?;
    print_lookups(rt, &ledger, rounds)
}

/// Folds so many records of payments, and prints what all of it takes.
fn run<R: Files + AllocGlobal + Print + Clock>(
    rt: &R,
    records: u32,
    rounds: u32,
) -> anyhow::Result<()> {
    let bodies = Bodies::new(payments(rt.alloc(), records)?);
    print_found(rt, &bodies, rounds)?;
    print_fold(rt, &bodies, u64::from(MOST / records.max(1)).min(100))?;
    drop(bodies);
    print_adding(rt, records, records / 10)
}

fn main(rt: HostRuntime) -> anyhow::Result<()> {
    let mut words = env::args(&rt)?;
    let _program = words.next();
    let records = match words.next() {
        Some(word) => word.as_str().parse::<u32>().context("RECORDS")?,
        None => return print_short(&rt),
    };
    let rounds = match words.next() {
        Some(word) => word.as_str().parse::<u32>().context("ROUNDS")?,
        None => 1000,
    };
    match words.next() {
        Some(_) => print_settled(&rt, records),
        None => run(&rt, records, rounds),
    }
}
