//! Payments whose slots take more than one block: some with keys that rise, and some whose keys come between those.
use crate::adding_tests::add;
use crate::records::ledger_of_day;
use crate::says::{check_lines, push_found, push_keys};
use gw_ledger::Ledger;
use std::alloc::{AllocError, Global};
use std::process::Abort;
use std::test::Fail;

/// How many payments have keys that rise: blocks of 128 are split among them.
const RISING: u32 = 540;

/// How many payments there are: the others fill the first block, so that it is split again.
const ALL: u32 = 840;

/// The ServiceID of the payment that is added at this place: a number of four digits. The even ones rise, and the odd ones
/// come between them.
fn service_at(alloc: Global, place: u32) -> Result<String, AllocError> {
    let value = if place < RISING {
        place.wrapping_mul(2)
    } else {
        place.wrapping_sub(RISING).wrapping_mul(2).wrapping_add(1)
    };
    format!(in alloc; "{value:04}")
}

/// The slot of the payment that is added at this place after the day.
fn slot_at(place: u32) -> u32 {
    place.wrapping_mul(2).wrapping_add(6)
}

fn payment(alloc: Global, service: &str, before: u32) -> Result<String, AllocError> {
    format!(in alloc; "pay {service} 000000000500 {before:06}")
}

fn approval(alloc: Global, slot: u32, number: u32) -> Result<String, AllocError> {
    format!(in alloc; "approved {slot:08x} {number:06} 000000000500")
}

/// Adds the payment at this place and its approval, and returns what the ledger returns.
fn added(alloc: Global, ledger: &mut Ledger, place: u32) -> Result<String, Fail> {
    let mut text = String::new(alloc);
    let service = service_at(alloc, place)?;
    let before = place.wrapping_add(125);
    let payment = payment(alloc, service.as_str(), before)?;
    let approval = approval(alloc, slot_at(place), before.wrapping_add(1))?;
    add(alloc, &mut text, ledger, payment.as_str())?;
    add(alloc, &mut text, ledger, approval.as_str())?;
    Ok(text)
}

/// Adds the payment at this place and its approval: the ledger returns the payment's slot.
fn check_added(
    rt: &impl Abort,
    alloc: Global,
    ledger: &mut Ledger,
    place: u32,
) -> Result<(), Fail> {
    let text = added(alloc, ledger, place)?;
    let wanted = format!(in alloc; "added {}\nadded\n", slot_at(place))?;
    assert_eq!(rt; text.as_str(), wanted.as_str(), "at {place}");
    Ok(())
}

/// What was added at this place is found, with its slot and the trace number of its approval.
fn check_found(rt: &impl Abort, alloc: Global, ledger: &Ledger, place: u32) -> Result<(), Fail> {
    let mut text = String::new(alloc);
    let service = service_at(alloc, place)?;
    push_found(&mut text, ledger, service.as_str())?;
    let slot = slot_at(place);
    let number = place.wrapping_add(126);
    let wanted = format!(in alloc; "entry {service} {slot} {number}\n")?;
    assert_eq!(rt; text.as_str(), wanted.as_str());
    Ok(())
}

/// A payment of the day, and ServiceIDs that no payment has.
const OTHERS: &str = "\
> entry 2 2 124
> unknown 0601
> unknown 1080";

#[test]
fn payments_in_more_than_one_block(rt: HostRuntime) -> Result<(), Fail> {
    let alloc = rt.alloc();
    let mut ledger = ledger_of_day(alloc)?;
    for place in 0..ALL {
        check_added(&rt, alloc, &mut ledger, place)?;
    }
    for place in 0..ALL {
        check_found(&rt, alloc, &ledger, place)?;
    }
    let mut found = String::new(alloc);
    push_keys(&mut found, &ledger, "2 0601 1080")?;
    check_lines(&rt, OTHERS, found.as_str());
    Ok(())
}
