//! The journal's file: how it is opened, so that what is read is what the disk has, and that nobody else writes it.
ghost use Rattle.std.specs.Prelude.{◌≡◌, ◌↔◌, ◌<◌, ◌≤◌, ℕ, length};
ghost use Rattle.jrn_log.specs.Slots.{IsOpenSlot};

use gw_bytes::MOST_SLOTS;
use jrn_log::{OPEN, SLOT_SIZE, SLOTS_OF_CHUNK, can_be_journal};
use libc::{POSIX_FADV_DONTNEED, posix_fadvise};
use std::fs::{self, File, OpenOptions, TryLockError};
use std::io::{self, ErrorKind};
use std::os::fd::AsRawFd;
use std::os::unix::fs::{FileExt, MetadataExt, OpenOptionsExt};
use std::rt::Files;

/// The most chunks of slots: one more than the greatest journal has, whose last gate comes after its slots.
const CHUNKS: u32 = MOST_SLOTS / SLOTS_OF_CHUNK as u32 + 1;

/// Opens the journal's file, and makes it where it is missing and its folder is there.
pub(crate) fn open_journal<R: Files<File = File>>(rt: &R, path: &str) -> io::Result<File> {
    let file = open_regular(rt, path)?;
    take_lock(&file)?;
    check_name(rt, &file, path)?;
    read_from_disk(rt, &file, path)?;
    check_content(&file)?;
    Ok(file)
}

/// Opens a regular file, which is neither appended to nor truncated.
///
/// What is there is looked at before it is opened: opening acts on some devices, and waits at a pipe.
fn open_regular<R: Files<File = File>>(rt: &R, path: &str) -> io::Result<File> {
    let mut fresh = OpenOptions::new();
    fresh.read(true).write(true).create_new(true).mode(0o600);
    match fresh.open(rt, path) {
        Ok(file) => return Ok(file),
        Err(error) => {
            if error.kind() != ErrorKind::AlreadyExists {
                return Err(error);
            }
        }
    }
    if !fs::symlink_metadata(rt, path)?.is_file() {
        return Err(io::Error::from(ErrorKind::Unsupported));
    }
    let mut there = OpenOptions::new();
    there.read(true).write(true);
    there.open(rt, path)
}

/// Takes the exclusive lock, which the system gives up when the process ends; fails where another process has it.
fn take_lock(file: &File) -> io::Result<()> {
    match file.try_lock() {
        Ok(()) => Ok(()),
        Err(TryLockError::WouldBlock) => Err(io::Error::from(ErrorKind::WouldBlock)),
        Err(TryLockError::Error(error)) => Err(error),
    }
}

/// Fails unless the path is the only name of the open file: under a second name another program could write it, and a
/// file whose name is gone is lost when it is closed.
fn check_name<R: Files<File = File>>(rt: &R, file: &File, path: &str) -> io::Result<()> {
    let opened = file.metadata()?;
    let named = fs::symlink_metadata(rt, path)?;
    if opened.is_file()
        && opened.nlink() == 1
        && opened.dev() == named.dev()
        && opened.ino() == named.ino()
    {
        Ok(())
    } else {
        Err(io::Error::from(ErrorKind::NotFound))
    }
}

/// The folder of a path.
fn folder(path: &str) -> &str {
    match path.rsplit_once('/') {
        Some(("", _)) => "/",
        Some((folder, _)) => folder,
        None => ".",
    }
}

/// Sees to it that the next read asks the disk, and that the file's name is on it.
///
/// A process before this one may have had a failed sync. Linux then keeps its pages in the cache as if they were written,
/// and later syncs return Ok, so what is read could be lost by a power failure. So the cached pages are given back.
fn read_from_disk<R: Files<File = File>>(rt: &R, file: &File, path: &str) -> io::Result<()> {
    file.sync_all()?;
    if posix_fadvise(file.as_raw_fd(), 0, 0, POSIX_FADV_DONTNEED) != 0 {
        return Err(io::Error::from(ErrorKind::Other));
    }
    // A new file is lost in a power failure until its folder is synced too.
    File::open(rt, folder(path))?.sync_all()
}

/// How many of the slots in this buffer are open, from the first on.
fn open_gates(buf: &[u8; 4096]) -> usize
    ensures few { result ≤ 16 }
    ensures exactly { (slot : ℕ) → IsOpenSlot buf.now slot ↔ (slot < result) }
{
    for slot in 0..SLOTS_OF_CHUNK {
        if buf[SLOT_SIZE * slot] != OPEN {
            return slot;
        }
    }
    SLOTS_OF_CHUNK
}

/// How many slots of the file are open, and the byte that is the gate after them, 0 past the file's end.
fn open_slots(file: &File, length: u64) -> io::Result<(u32, u8)> {
    let mut buf = [0; SLOT_SIZE * SLOTS_OF_CHUNK];
    // A file of one byte has no open slot, whatever the byte is.
    if length <= 1 {
        return Ok((0, 0));
    }
    for chunk in 0..CHUNKS {
        let slot = SLOTS_OF_CHUNK as u32 * chunk;
        read_full(file, SLOT_SIZE as u64 * u64::from(slot), &mut buf)?;
        let count = open_gates(&buf);
        if count < SLOTS_OF_CHUNK {
            return Ok((slot + count as u32, buf[SLOT_SIZE * count]));
        }
    }
    Ok((SLOTS_OF_CHUNK as u32 * CHUNKS, 0))
}

/// Fails where no gateway has left the file.
fn check_content(file: &File) -> io::Result<()> {
    let length = file.metadata()?.len();
    let (slots, gate) = open_slots(file, length)?;
    if can_be_journal(length, slots, gate) {
        Ok(())
    } else {
        Err(io::Error::from(ErrorKind::InvalidData))
    }
}

/// Fails where the file goes on at an offset: a read that has brought nothing there has not read what the disk has.
fn check_end(file: &File, offset: u64) -> io::Result<()> {
    if offset < file.metadata()?.len() {
        return Err(io::Error::from(ErrorKind::UnexpectedEof));
    }
    Ok(())
}

/// Fills the buffer from an offset on, with zeros past the file's end.
pub(crate) fn read_full(file: &File, offset: u64, buf: &mut [u8]) -> io::Result<()>
    ensures { length buf.new ≡ length buf.old }
{
    let mut filled = 0;
    for _ in 0..u64::MAX {
        if filled >= buf.len() {
            return Ok(());
        }
        let next = offset.saturating_add(filled as u64);
        match file.read_at(&mut buf[filled..], next) {
            Ok(0) => {
                check_end(file, next)?;
                break;
            }
            Ok(count) => filled += count,
            Err(error) => {
                if error.kind() != ErrorKind::Interrupted {
                    return Err(error);
                }
            }
        }
    }
    for byte in buf[filled..].iter_mut() {
        *byte = 0;
    }
    Ok(())
}

/// Writes all of the bytes at an offset, where the file still has its name.
pub(crate) fn write_named<R: Files<File = File>>(
    rt: &R,
    file: &File,
    path: &str,
    offset: u64,
    bytes: &[u8],
) -> io::Result<()> {
    check_name(rt, file, path)?;
    file.write_all_at(bytes, offset)
}

/// Opens `/dev/null` until descriptors 0 to 2 are taken.
///
/// A process may be started with some of them closed. A socket or the journal would then get the number of standard
/// output, and what is printed would be written to a till, or over the journal's first gate.
pub(crate) fn take_standard<R: Files<File = File>>(rt: &R, kept: &mut Vec<File>) -> io::Result<()> {
    for _ in 0..4 {
        let file = File::open(rt, "/dev/null")?;
        if file.as_raw_fd() > 2 {
            break;
        }
        kept.push(file)?;
    }
    Ok(())
}
