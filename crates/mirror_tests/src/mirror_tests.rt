//! What a mirror leaves on two disks in memory.
ghost use Rattle.std.specs.Prelude.{IsTrue};

use crate::{File, TwoFiles};
use gw_base::{Ident, Pts, Setup, Text};
use gw_site::Site;
use jrn_mirror::{Half, Mirror};
use std::test::Fail;

/// More calls than a test makes.
const MANY: u64 = 1_000;

fn a_setup(rt: &HostRuntime) -> Result<Setup, Fail> {
    let name = Ident::of(b"GATEWAY").ok_or("an identifier")?;
    Ok(Setup {
        name,
        listen: Text::new(format!(in rt.alloc(); "")?),
        journal: Text::new(format!(in rt.alloc(); "")?),
        line: 0,
        wait: 60,
        slots: 1000,
        terminals: Pts::new(Vec::new(rt.alloc())),
    })
}

/// Opens the disks as one. Whether that succeeds.
fn open(rt: &HostRuntime, mirror: &mut Mirror<TwoFiles>) -> Result<bool, Fail> {
    let setup = a_setup(rt)?;
    if !setup.is_within_limits() {
        return Ok(false);
    }
    Ok(mirror.open(&setup).is_ok())
}

/// The first two bytes of this disk's file, and its length.
fn left_on(pair: &TwoFiles, disk: Half) -> (u8, u8, u64) {
    let file = pair.file(disk);
    (file.byte_at(0), file.byte_at(1), file.size())
}

#[test]
fn the_longer_file_is_copied(rt: HostRuntime) -> Result<(), Fail> {
    let pair = TwoFiles::new(File::of(b"a", MANY), File::of(b"ab", MANY));
    let mut mirror = Mirror::new(pair);
    assert!(rt; open(&rt, &mut mirror)?);
    let pair = mirror.into_pair();
    assert_eq!(rt; left_on(&pair, Half::First), (b'a', b'b', 2));
    assert_eq!(rt; left_on(&pair, Half::Second), (b'a', b'b', 2));
    assert_eq!(rt; pair.writes(), 1);
    Ok(())
}

#[test]
fn only_what_differs_is_copied(rt: HostRuntime) -> Result<(), Fail> {
    let pair = TwoFiles::new(File::of(b"abcdefg", MANY), File::of(b"aXcdYZg", MANY));
    let mut mirror = Mirror::new(pair);
    assert!(rt; open(&rt, &mut mirror)?);
    let pair = mirror.into_pair();
    assert_eq!(rt; left_on(&pair, Half::Second), (b'a', b'b', 7));
    assert_eq!(rt; pair.file(Half::Second).byte_at(5), b'f');
    assert_eq!(rt; pair.writes(), 2);
    Ok(())
}

/// The opening makes three calls on each disk: its length, one read and the sync.
#[test]
fn one_disk_is_left(rt: HostRuntime) -> Result<(), Fail> {
    let pair = TwoFiles::new(File::of(b"ab", 3), File::of(b"ab", MANY));
    let mut mirror = Mirror::new(pair);
    assert!(rt; open(&rt, &mut mirror)?);
    assert!(rt; mirror.write_at(0, b"x").is_ok());
    assert!(rt; mirror.sync().is_ok());
    let mut buf = [0; 2];
    assert!(rt; mirror.read_at(0, &mut buf).is_ok());
    assert!(rt; buf[0] == b'x' && buf[1] == b'b');
    let pair = mirror.into_pair();
    assert_eq!(rt; left_on(&pair, Half::First), (b'a', b'b', 2));
    assert_eq!(rt; left_on(&pair, Half::Second), (b'x', b'b', 2));
    Ok(())
}

#[test]
fn no_disk_is_left(rt: HostRuntime) -> Result<(), Fail> {
    let pair = TwoFiles::new(File::of(b"ab", 3), File::of(b"ab", 3));
    let mut mirror = Mirror::new(pair);
    assert!(rt; open(&rt, &mut mirror)?);
    assert!(rt; mirror.write_at(0, b"x").is_err());
    assert!(rt; mirror.length().is_err());
    assert!(rt; !open(&rt, &mut mirror)?);
    Ok(())
}

#[test]
fn a_mirror_is_opened_first(rt: HostRuntime) -> Result<(), Fail> {
    let pair = TwoFiles::new(File::of(b"ab", MANY), File::of(b"ab", MANY));
    let mut mirror = Mirror::new(pair);
    assert!(rt; mirror.write_at(0, b"x").is_err());
    assert!(rt; !open(&rt, &mut mirror)?);
    assert_eq!(rt; mirror.into_pair().writes(), 0);
    Ok(())
}
