//! The power fails after each call of a drill of three payments, in each way, and again after each call of the run that comes next, in each
//! way; then the drill is played to its end.
//!
//! Whatever the power leaves, each payment is booked once at most, what tills have got for it at any time is true of the books, and no payment
//! is open at last: the records have those as approved that are booked, and no others.
use crate::payments::{booked_in_all, booked_once};
use crate::replies::true_replies;
use crate::runs::{Stop, is_ended, is_stopped, tally_of};
use gw_ledger::Tally;
use sim_site::SimSite;
use std::alloc::{AllocError, Global};
use std::process::Abort;
use std::test::Fail;

/// What a power failure leaves: the file of the last sync, that with all writes, or that with junk.
const IMAGES: [&str; 3] = ["old", "new", "junk"];

/// After how many calls the power no longer fails before the drill's end.
const WHOLE: u64 = 62;

/// After how many calls it no longer fails in a run that comes next, at most.
const MOST: u64 = 100;

/// A power failure in the first run, and one in the next.
#[derive(Clone, Copy)]
struct Case {
    first: Stop,
    next: Stop,
}

impl Case {
    /// Its text.
    fn text(self, alloc: Global) -> Result<String, AllocError> {
        let Case { first, next } = self;
        format!(in alloc;
            "power {} {}, power {} {}",
            first.calls, first.image, next.calls, next.image
        )
    }
}

/// How many payments are booked, and how many replies were sent. Each payment is booked once at most, and each reply is true of the books.
fn counts_of(alloc: Global, site: &SimSite, case: &str) -> Result<(usize, usize), Fail> {
    let Some(booked) = booked_once(site) else {
        return Err(Fail::new(format_args!("the books: {case}")));
    };
    match true_replies(alloc, site)? {
        Some(replies) => Ok((booked, replies)),
        None => Err(Fail::new(format_args!("a reply: {case}"))),
    }
}

/// Whether no payment is open, and so many are approved as are booked, of the same minor units.
fn is_resolved(site: &SimSite, tally: &Tally, booked: usize) -> bool {
    let (_, sum) = booked_in_all(site);
    let ended = u64::from(tally.approved).saturating_add(u64::from(tally.declined));
    tally.unresolved == 0
        && u64::from(tally.accepted) == ended
        && tally.approved as usize == booked
        && tally.sum == sum
}

/// The books, the replies and the records of a drill that has ended agree. How many payments are booked, and how many replies were sent.
fn check_books(
    rt: &impl Abort,
    alloc: Global,
    site: &mut SimSite,
    case: &str,
) -> Result<(usize, usize), Fail> {
    let tally = tally_of(alloc, site)?;
    let counts = counts_of(alloc, site, case)?;
    assert!(rt; is_resolved(site, &tally, counts.0), "the records: {case}");
    Ok(counts)
}

/// The drill is played to its end, where all agrees.
fn check_end(
    rt: &impl Abort,
    alloc: Global,
    site: &mut SimSite,
    case: &str,
) -> Result<(usize, usize), Fail> {
    let is_ended = is_ended(alloc, site)?;
    assert!(rt; is_ended, "the end: {case}");
    check_books(rt, alloc, site, case)
}

/// The power fails over a new site as a case says, if it does so in the run that comes next. Whether it does.
fn check_stops(
    rt: &impl Abort,
    alloc: Global,
    site: &mut SimSite,
    case: Case,
) -> Result<bool, Fail> {
    let text = case.text(alloc)?;
    let is_first = is_stopped(alloc, site, case.first)?;
    assert!(rt; is_first, "the first run: {text}");
    let is_next = is_stopped(alloc, site, case.next)?;
    check_end(rt, alloc, site, &text)?;
    Ok(is_next)
}

/// The same of a drill.
fn check_case(rt: &impl Abort, alloc: Global, case: Case) -> Result<bool, Fail> {
    let mut site = SimSite::played(alloc, 1, 3)?;
    check_stops(rt, alloc, &mut site, case)
}

/// The power fails in the first run, and after each call of the next one, until it no longer does. After how many calls that is.
fn check_next(
    rt: &impl Abort,
    alloc: Global,
    first: Stop,
    image: &'static str,
) -> Result<u64, Fail> {
    for calls in 0..MOST {
        let next = Stop { calls, image };
        if !check_case(rt, alloc, Case { first, next })? {
            return Ok(calls);
        }
    }
    Err(Fail::from("the power fails again and again"))
}

/// The power fails in the first run, and again in each way. How many cases that are.
fn check_first(rt: &impl Abort, alloc: Global, first: Stop) -> Result<u64, Fail> {
    let mut cases: u64 = 0;
    for image in IMAGES {
        let calls = check_next(rt, alloc, first, image)?;
        cases = cases.saturating_add(calls).saturating_add(1);
    }
    Ok(cases)
}

/// The power fails after each call of the first run and leaves this, and fails again. These are so many cases.
fn check_all(rt: &impl Abort, alloc: Global, image: &'static str, wanted: u64) -> Result<(), Fail> {
    let mut cases: u64 = 0;
    for calls in 0..WHOLE {
        let first = Stop { calls, image };
        cases = cases.saturating_add(check_first(rt, alloc, first)?);
    }
    assert_eq!(rt; cases, wanted, "cases");
    Ok(())
}

/// The power doesn't fail in a drill. Two payments are booked, and each one gets its reply and that to its status.
fn check_whole(rt: &impl Abort, alloc: Global, site: &mut SimSite) -> Result<(), Fail> {
    let whole = Stop {
        calls: WHOLE,
        image: "old",
    };
    let is_stopped = is_stopped(alloc, site, whole)?;
    assert!(rt; !is_stopped, "the power fails");
    let counts = check_end(rt, alloc, site, "no power failure")?;
    assert_eq!(rt; counts, (2, 6), "payments and replies");
    Ok(())
}

#[test]
fn no_power_failure(rt: HostRuntime) -> Result<(), Fail> {
    let mut site = SimSite::played(rt.alloc(), 1, 3)?;
    check_whole(&rt, rt.alloc(), &mut site)
}

#[test]
fn power_failures_that_leave_the_last_sync(rt: HostRuntime) -> Result<(), Fail> {
    check_all(&rt, rt.alloc(), "old", 7_179)
}

#[test]
fn power_failures_that_leave_all_writes(rt: HostRuntime) -> Result<(), Fail> {
    check_all(&rt, rt.alloc(), "new", 7_173)
}

#[test]
fn power_failures_that_leave_junk(rt: HostRuntime) -> Result<(), Fail> {
    check_all(&rt, rt.alloc(), "junk", 7_173)
}
