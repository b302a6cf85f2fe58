//! Tests that need a process of their own, which they start through a shell.
use crate::shell::{Row, child_file, report, see_children};
use gw_site::What;
use net_play::{Rig, Steps, check, got_nothing};
use std::fs::{self, File};
use std::net::TcpStream;
use std::test::Fail;
use std::time::Duration;

/// Writes until the disk is full, and sees that no call succeeds after that.
fn fill(rig: &mut Rig<'_>) -> Steps {
    for slot in 0..10u64 {
        if !rig.writes(256 * slot, &[0x00; 256]) {
            check!(!rig.writes(0, &[0x00]), "a write after it");
            check!(!rig.syncs(), "a sync after it");
            return check(rig.length().is_none(), "the length after it");
        }
    }
    Err("the disk is full")
}

fn fill_and_remove(rig: &mut Rig<'_>) -> Result<(), Fail> {
    fill(rig)?;
    rig.remove_file()
}

fn a_full_disk(rt: &HostRuntime) -> Result<(), Fail> {
    let mut rig = Rig::opened(rt, "full_journal", 47011, &[])?;
    fill_and_remove(&mut rig)
}

const FULL: [Row; 1] = [("trap '' XFSZ; ulimit -f 1;", "", "failed for good")];

#[test]
fn a_disk_that_is_full(rt: HostRuntime) -> Result<(), Fail> {
    let Some(file) = child_file(&rt, "full") else {
        return see_children(&rt, "full", &FULL);
    };
    a_full_disk(&rt)?;
    report(&rt, file.as_str(), "failed for good")
}

/// Prints, and sees that nobody gets it: neither the file, nor the till, nor the site by the till's connection.
fn print(rt: &HostRuntime, rig: &mut Rig<'_>, till: &mut TcpStream) -> Steps {
    let mut buf = [0; 4096];
    let _ = rt.print("status 0\n");
    let _ = rt.eprint("status 0\n");
    check!(rig.length() == Some(0), "the file is empty");
    check!(got_nothing(till), "the till got nothing");
    check(
        rig.poll(&mut buf) == What::Nothing,
        "and nothing came by its connection",
    )
}

fn print_beside_a_till(rt: &HostRuntime, rig: &mut Rig<'_>) -> Steps {
    let mut till = rig.connect()?;
    check!(rig.brings(What::TillOpened(1)), "a till opens");
    print(rt, rig, &mut till)
}

fn print_and_remove(rt: &HostRuntime, rig: &mut Rig<'_>) -> Result<(), Fail> {
    print_beside_a_till(rt, rig)?;
    rig.remove_file()
}

fn closed_descriptors(rt: &HostRuntime) -> Result<(), Fail> {
    let mut rig = Rig::opened(rt, "closed_journal", 47012, &[])?;
    print_and_remove(rt, &mut rig)
}

/// Each way in which a process may be started without them: with neither, so that a till would get the number of standard
/// error, and without one of the last two, which the file would get.
const CLOSED: [Row; 3] = [
    ("", " <&- >&- 2>&-", "nothing went astray"),
    ("", " >&-", "nothing went astray"),
    ("", " 2>&-", "nothing went astray"),
];

#[test]
fn descriptors_that_are_closed(rt: HostRuntime) -> Result<(), Fail> {
    let Some(file) = child_file(&rt, "closed") else {
        return see_children(&rt, "closed", &CLOSED);
    };
    closed_descriptors(&rt)?;
    report(&rt, file.as_str(), "nothing went astray")
}

/// How many descriptors a process may have open, and what then comes of an opening: a poll has 98 entries.
const LIMITS: [Row; 3] = [
    ("ulimit -n 64;", "", "refused"),
    ("ulimit -n 97;", "", "refused"),
    ("ulimit -n 98;", "", "opened"),
];

/// Whether a site opens, and makes its file.
fn is_opened(rt: &HostRuntime) -> Result<bool, Fail> {
    let mut rig = Rig::new(rt, "few_journal", 47016)?;
    makes_its_file(rt, &mut rig)
}

/// Whether it opens and makes its file.
fn makes_its_file(rt: &HostRuntime, rig: &mut Rig<'_>) -> Result<bool, Fail> {
    let is_open = rig.open(&[])?;
    let is_made = fs::remove_file(rt, rig.journal()).is_ok();
    check!(is_made == is_open, "a file is made where it is opened");
    Ok(is_made)
}

#[test]
fn too_few_descriptors_for_a_poll(rt: HostRuntime) -> Result<(), Fail> {
    let Some(file) = child_file(&rt, "few") else {
        return see_children(&rt, "few", &LIMITS);
    };
    let found = if is_opened(&rt)? { "opened" } else { "refused" };
    report(&rt, file.as_str(), found)
}

/// Opens `/dev/null` until the process may have no more descriptors.
fn take_descriptors(rt: &HostRuntime) -> Result<Vec<File>, Fail> {
    let mut held = Vec::new(rt.alloc());
    for _ in 0..98 {
        match File::open(rt, "/dev/null") {
            Ok(file) => held.push(file)?,
            Err(_) => break,
        }
    }
    check!(held.len() < 98, "none is left");
    Ok(held)
}

fn polls_without_a_descriptor(rt: &HostRuntime, rig: &mut Rig<'_>) -> Result<(), Fail> {
    let _held = take_descriptors(rt)?;
    let took = rig.four_quiet_polls()?;
    check!(took >= Duration::from_millis(90), "the polls wait");
    Ok(())
}

fn polls_until_it_opens(rt: &HostRuntime, rig: &mut Rig<'_>) -> Result<(), Fail> {
    polls_without_a_descriptor(rt, rig)?;
    check!(rig.brings(What::TillOpened(1)), "then it opens");
    rig.remove_file()
}

fn a_till_without_a_descriptor(rt: &HostRuntime, rig: &mut Rig<'_>) -> Result<(), Fail> {
    let _till = rig.connect()?;
    polls_until_it_opens(rt, rig)
}

fn a_till_opens_later(rt: &HostRuntime) -> Result<(), Fail> {
    let mut rig = Rig::opened(rt, "none_journal", 47022, &[])?;
    a_till_without_a_descriptor(rt, &mut rig)
}

const NONE: [Row; 1] = [("ulimit -n 98;", "", "it opens later")];

/// A till that can't be accepted waits, and the polls do too: every second one leaves the listener out.
#[test]
fn no_descriptor_for_a_till(rt: HostRuntime) -> Result<(), Fail> {
    let Some(file) = child_file(&rt, "none") else {
        return see_children(&rt, "none", &NONE);
    };
    a_till_opens_later(&rt)?;
    report(&rt, file.as_str(), "it opens later")
}
