//! Tests of the file.
use crate::shell::{is_child, run_in_shell};
use jrn_log::{AppendFault, Journal};
use net_play::{Rig, Steps, check, path};
use net_site::NetSite;
use std::alloc::AllocError;
use std::fs;
use std::os::unix::fs::{MetadataExt, symlink};
use std::test::Fail;

/// Whether a file has exactly these bytes.
fn is_file(rt: &HostRuntime, path: &str, bytes: &[u8]) -> bool {
    match fs::read(rt, path) {
        Ok(found) => found.as_slice() == bytes,
        Err(_) => false,
    }
}

fn what_was_written(rig: &mut Rig<'_>) -> Steps {
    check!(rig.length() == Some(0), "a new file is empty");
    check!(rig.writes(0, &[0x00]), "a write");
    check!(rig.writes(3, b"abc"), "another with a gap");
    check!(rig.syncs(), "a sync");
    check(rig.length() == Some(6), "the length")
}

fn what_is_read(rig: &mut Rig<'_>) -> Steps {
    let mut buf = [7; 8];
    check!(rig.reads(1, &mut buf), "a read");
    check(
        buf == [0, 0, b'a', b'b', b'c', 0, 0, 0],
        "what was written, and zeros",
    )
}

/// Once its name is gone nothing is written, and nothing that is said of the disk counts any more.
fn a_failed_disk(rig: &mut Rig<'_>) -> Steps {
    check!(!rig.writes(0, &[0xA5]), "a write fails");
    check!(rig.length().is_none(), "the length fails after it");
    check(!rig.syncs(), "and so does a sync")
}

/// Whether another site opens with this file.
fn another_opens(rt: &HostRuntime, name: &str, port: u16) -> Result<bool, Fail> {
    let mut other = Rig::new(rt, name, port)?;
    other.open(&[])
}

/// A file that is written, read, locked and removed.
fn a_file(rt: &HostRuntime, rig: &mut Rig<'_>) -> Result<(), Fail> {
    what_was_written(rig)?;
    what_is_read(rig)?;
    // A second gateway doesn't get the file while the first has it.
    check!(!another_opens(rt, "file", 47008)?, "the file is locked");
    rig.remove_file()?;
    a_failed_disk(rig)?;
    Ok(())
}

#[test]
fn a_file_is_read_as_it_was_written(rt: HostRuntime) -> Result<(), Fail> {
    if is_child(&rt) {
        return Ok(());
    }
    let mut rig = Rig::opened(&rt, "file", 47007, &[])?;
    a_file(&rt, &mut rig)
}

/// Keeps a body where there is room.
fn keep(site: &mut NetSite<&HostRuntime>, journal: &mut Journal) -> Result<(), AppendFault> {
    if journal.room() > 0 {
        let _ = journal.append(site, &[0x2B; 255])?;
    }
    Ok(())
}

/// The journal of a site, and how many bodies it has.
fn opened_journal(
    rt: &HostRuntime,
    site: &mut NetSite<&HostRuntime>,
) -> Result<(Journal, usize), Fail> {
    let (journal, bodies) = Journal::open(rt.alloc(), site, 1000)?;
    Ok((journal, bodies.as_slice().len()))
}

/// Keeps a body, twenty times.
fn keep_twenty(site: &mut NetSite<&HostRuntime>, journal: &mut Journal) -> Result<(), AppendFault> {
    for _ in 0..20 {
        keep(site, journal)?;
    }
    Ok(())
}

/// A site's journal has so many bodies, and gets twenty more.
fn twenty_more(
    rt: &HostRuntime,
    site: &mut NetSite<&HostRuntime>,
    bodies_before: usize,
) -> Result<(), Fail> {
    let (mut journal, bodies) = opened_journal(rt, site)?;
    check!(bodies == bodies_before, "the bodies are there");
    keep_twenty(site, &mut journal)?;
    Ok(())
}

fn twenty_records(rt: &HostRuntime, name: &str, bodies_before: usize) -> Result<(), Fail> {
    let mut rig = Rig::opened(rt, name, 47009, &[])?;
    twenty_more(rt, &mut rig.site, bodies_before)
}

#[test]
fn a_journal_is_opened_again(rt: HostRuntime) -> Result<(), Fail> {
    if is_child(&rt) {
        return Ok(());
    }
    for bodies in [0, 20, 40] {
        twenty_records(&rt, "journal", bodies)?;
    }
    let journal = path(&rt, "journal")?;
    fs::remove_file(&rt, journal.as_str())?;
    Ok(())
}

/// The length of a file, the gates of its slots, and whether a journal can have left it.
const ROWS: [(usize, [u8; 5], bool); 13] = [
    (0, [0; 5], true),
    (1, [0x7B; 5], true),
    (2, [0; 5], true),
    (2, [0x7B; 5], false),
    (256, [0; 5], true),
    (257, [0x7B; 5], true),
    (258, [0; 5], false),
    (256, [0xA5; 5], true),
    (257, [0xA5, 0x00, 0, 0, 0], true),
    (257, [0xA5, 0x01, 0, 0, 0], false),
    (1025, [0xA5, 0xA5, 0xA5, 0x00, 0], true),
    (1025, [0xA5, 0x00, 0xA5, 0xA5, 0], false),
    (1025, [0xA5; 5], true),
];

/// What a slot has after its gate.
const BODY: [u8; 255] = [0x2A; 255];

/// The first bytes, so many, of slots with these gates.
fn file_of(rt: &HostRuntime, gates: &[u8], length: usize) -> Result<Vec<u8>, AllocError> {
    let mut file = Vec::new(rt.alloc());
    for gate in gates {
        file.push(*gate)?;
        file.extend_from_slice(&BODY)?;
    }
    file.truncate(length);
    Ok(file)
}

/// The gates of forty slots and the one after them, which are open but for the one after so many.
fn gates_of_forty_slots(rt: &HostRuntime, before: usize) -> Result<Vec<u8>, AllocError> {
    let mut gates = Vec::new(rt.alloc());
    for slot in 0..41usize {
        gates.push(if slot == before { 0x00 } else { 0xA5 })?;
    }
    Ok(gates)
}

/// A file is opened or refused, and left as it is.
fn is_left(rt: &HostRuntime, rig: &mut Rig<'_>, file: &[u8], is_ours: bool) -> Result<(), Fail> {
    fs::write(rt, rig.journal(), file)?;
    check!(rig.open(&[])? == is_ours, "which files are opened");
    check!(is_file(rt, rig.journal(), file), "a file is left as it is");
    Ok(())
}

fn files_of_few_slots(rt: &HostRuntime, rig: &mut Rig<'_>) -> Result<(), Fail> {
    for (length, gates, is_ours) in ROWS {
        let file = file_of(rt, &gates, length)?;
        is_left(rt, rig, &file, is_ours)?;
    }
    Ok(())
}

/// A file of forty slots, with the gate after them, of which one is closed.
fn file_of_forty_slots(
    rt: &HostRuntime,
    rig: &mut Rig<'_>,
    before: usize,
    is_ours: bool,
) -> Result<(), Fail> {
    let gates = gates_of_forty_slots(rt, before)?;
    let file = file_of(rt, &gates, 10_241)?;
    is_left(rt, rig, &file, is_ours)
}

/// A folder, devices, a folder that is missing, and no path.
const OTHER_PATHS: [&str; 5] = [
    "/tmp",
    "/dev/zero",
    "/dev/null",
    "/tmp/file_tests-none/journal",
    "",
];

fn foreign_files(rt: &HostRuntime, rig: &mut Rig<'_>) -> Result<(), Fail> {
    files_of_few_slots(rt, rig)?;
    file_of_forty_slots(rt, rig, 40, true)?;
    file_of_forty_slots(rt, rig, 20, false)?;
    rig.remove_file()
}

fn other_paths(rig: &mut Rig<'_>) -> Result<(), Fail> {
    for other_path in OTHER_PATHS {
        check!(!rig.open_file(other_path)?, "that is no file for a journal");
    }
    Ok(())
}

fn foreign_files_and_other_paths(rt: &HostRuntime, rig: &mut Rig<'_>) -> Result<(), Fail> {
    foreign_files(rt, rig)?;
    other_paths(rig)
}

#[test]
fn a_file_that_is_no_journal_is_refused(rt: HostRuntime) -> Result<(), Fail> {
    if is_child(&rt) {
        return Ok(());
    }
    let mut rig = Rig::new(&rt, "foreign", 47010)?;
    foreign_files_and_other_paths(&rt, &mut rig)
}

/// A journal has a second name, and then no more.
fn two_names(rt: &HostRuntime, rig: &mut Rig<'_>, second: &str) -> Result<(), Fail> {
    fs::write(rt, rig.journal(), b"\0")?;
    fs::hard_link(rt, rig.journal(), second)?;
    check!(!rig.open(&[])?, "it has two names");
    fs::remove_file(rt, second)?;
    check!(rig.open(&[])?, "it has one name");
    rig.remove_file()
}

#[test]
fn a_file_with_two_names_is_refused(rt: HostRuntime) -> Result<(), Fail> {
    if is_child(&rt) {
        return Ok(());
    }
    let second = path(&rt, "two")?;
    let mut rig = Rig::new(&rt, "one", 47013)?;
    two_names(&rt, &mut rig, second.as_str())
}

fn mode_of(rt: &HostRuntime, file: &str) -> Result<u32, Fail> {
    Ok(fs::metadata(rt, file)?.mode())
}

fn its_owner_alone(rt: &HostRuntime, rig: &Rig<'_>) -> Result<(), Fail> {
    let mode = mode_of(rt, rig.journal())?;
    check!(mode & 0o7777 == 0o600, "its owner reads and writes it");
    rig.remove_file()
}

#[test]
fn a_new_file_is_for_its_owner_alone(rt: HostRuntime) -> Result<(), Fail> {
    if is_child(&rt) {
        return Ok(());
    }
    let rig = Rig::opened(&rt, "mode", 47017, &[])?;
    its_owner_alone(&rt, &rig)
}

/// Makes a pipe with this path.
fn make_pipe(rt: &HostRuntime, pipe: &str) -> Result<(), Fail> {
    let command = format!(in rt.alloc(); "mkfifo '{pipe}'")?;
    run_in_shell(rt, command.as_str())?;
    let made = fs::symlink_metadata(rt, pipe)?;
    check!(!made.is_file(), "a pipe is made");
    Ok(())
}

fn a_link_to_nothing(rt: &HostRuntime, rig: &mut Rig<'_>, journal: &str) -> Result<(), Fail> {
    check!(!rig.open(&[])?, "a link to nothing");
    let is_made = fs::remove_file(rt, journal).is_ok();
    check!(!is_made, "no file is made through a link");
    Ok(())
}

fn a_link_to_a_journal(rt: &HostRuntime, rig: &mut Rig<'_>, journal: &str) -> Result<(), Fail> {
    fs::write(rt, journal, b"\0")?;
    check!(!rig.open(&[])?, "a link to a journal");
    fs::remove_file(rt, journal)?;
    Ok(())
}

/// A link with this path to a journal that isn't there, and to one that is.
fn a_link(rt: &HostRuntime, rig: &mut Rig<'_>, link: &str) -> Result<(), Fail> {
    let journal = path(rt, "linked")?;
    symlink(rt, journal.as_str(), link)?;
    a_link_to_nothing(rt, rig, journal.as_str())?;
    a_link_to_a_journal(rt, rig, journal.as_str())?;
    fs::remove_file(rt, link)?;
    Ok(())
}

fn a_link_and_a_pipe(rt: &HostRuntime, rig: &mut Rig<'_>, link: &str) -> Result<(), Fail> {
    a_link(rt, rig, link)?;
    make_pipe(rt, link)?;
    check!(!rig.open(&[])?, "a pipe");
    rig.remove_file()
}

/// A link isn't followed, and neither it nor a pipe is opened.
#[test]
fn a_link_and_a_pipe_are_refused(rt: HostRuntime) -> Result<(), Fail> {
    if is_child(&rt) {
        return Ok(());
    }
    let link = path(&rt, "link")?;
    let mut rig = Rig::new(&rt, "link", 47018)?;
    a_link_and_a_pipe(&rt, &mut rig, link.as_str())
}

/// Moves the file that the site has open, and puts another under its name. Then neither is written.
fn replace(rt: &HostRuntime, rig: &mut Rig<'_>, aside: &str) -> Result<(), Fail> {
    fs::rename(rt, rig.journal(), aside)?;
    fs::write(rt, rig.journal(), b"\0")?;
    a_failed_disk(rig)?;
    check!(is_file(rt, rig.journal(), b"\0"), "it is left as it is");
    check!(is_file(rt, aside, b"\0"), "and so is the one aside");
    fs::remove_file(rt, aside)?;
    Ok(())
}

fn a_file_is_replaced(rt: &HostRuntime, rig: &mut Rig<'_>, aside: &str) -> Result<(), Fail> {
    check!(rig.writes(0, &[0x00]), "a write");
    replace(rt, rig, aside)?;
    check!(!rig.open(&[])?, "it isn't opened any more");
    // Another process would be: the failed opening has left neither the address nor the file.
    check!(another_opens(rt, "replaced", 47019)?, "another site is");
    rig.remove_file()
}

#[test]
fn a_file_that_is_replaced_fails_for_good(rt: HostRuntime) -> Result<(), Fail> {
    if is_child(&rt) {
        return Ok(());
    }
    let aside = path(&rt, "aside")?;
    let mut rig = Rig::opened(&rt, "replaced", 47019, &[])?;
    a_file_is_replaced(&rt, &mut rig, aside.as_str())
}
