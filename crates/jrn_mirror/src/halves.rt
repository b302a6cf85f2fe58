//! Calls on one disk of a pair, and on both: a call says which disks are there after it.
ghost use Rattle.std.specs.Prelude.{◌≡◌, ◌≤◌, ◌||◌, is_some, IfSome, None, ◌++◌, ◌∷◌, [], ◌↔◌, true, false, not, List, IfOk, OnErr, IsErr, length};
ghost use Rattle.gw_site.specs.Outside.{file_part};
ghost use Rattle.jrn_mirror.specs.declared.turn.Half.TheVariants.{First, Second};
ghost use Rattle.jrn_mirror.specs.declared.turn.Turn2.{Turn2};
ghost use Rattle.jrn_mirror.specs.PairOutside.{disk_of, pair_outside_of};
ghost use Rattle.jrn_mirror.specs.PairObserved.{PairObserved, IfLogged, PairGrows, is_lost};
ghost use Rattle.jrn_mirror.specs.inner.Halves.{half_write, half_sync, loss, HasOf, OneHas, there_look, there_write, there_sync, AreGone, StayGone};

use crate::{Half, Pair};

/// Writes to one disk, and says whether it is there after that.
pub(crate) fn write_half<P: Pair>(pair: &mut P, disk: Half, offset: u64, bytes: &[u8]) -> bool
    ensures turns { PairGrows (P.observed pair.old) (P.observed pair.new) (λ turns. turns ≡ half_write disk offset bytes.now result) }
    ensures gone { result ≡ false → (P.observed pair.new).dark ≡ false → is_lost (P.observed pair.new) disk ≡ true }
    ensures lost { is_lost (P.observed pair.old) disk ≡ true → result ≡ false }
    ensures dark { (P.observed pair.old).dark ≡ true → result ≡ false }
{
    match pair.write_at(disk, offset, bytes) {
        Ok(()) => true,
        Err(_) => false,
    }
}

/// Syncs one disk, and says whether it is there after that.
pub(crate) fn sync_half<P: Pair>(pair: &mut P, disk: Half) -> bool
    ensures turns { PairGrows (P.observed pair.old) (P.observed pair.new) (λ turns. turns ≡ half_sync disk result) }
    ensures gone { result ≡ false → (P.observed pair.new).dark ≡ false → is_lost (P.observed pair.new) disk ≡ true }
    ensures lost { is_lost (P.observed pair.old) disk ≡ true → result ≡ false }
    ensures dark { (P.observed pair.old).dark ≡ true → result ≡ false }
{
    match pair.sync(disk) {
        Ok(()) => true,
        Err(_) => false,
    }
}

/// Writes to the first disk and then to the second.
pub(crate) fn write_both<P: Pair>(pair: &mut P, offset: u64, bytes: &[u8]) -> (bool, bool)
    ensures turns { PairGrows (P.observed pair.old) (P.observed pair.new) (λ turns. turns ≡ half_write First offset bytes.now result.0 ++ half_write Second offset bytes.now result.1) }
    ensures first { result.0 ≡ false → (P.observed pair.new).dark ≡ false → (P.observed pair.new).first_lost ≡ true }
    ensures second { result.1 ≡ false → (P.observed pair.new).dark ≡ false → (P.observed pair.new).second_lost ≡ true }
    ensures dark { (P.observed pair.old).dark ≡ true → (result.0 ≡ false) × (result.1 ≡ false) }
{
    let first = write_half(pair, Half::First, offset, bytes);
    let second = write_half(pair, Half::Second, offset, bytes);
    (first, second)
}

/// Syncs the first disk and then the second.
pub(crate) fn sync_both<P: Pair>(pair: &mut P) -> (bool, bool)
    ensures turns { PairGrows (P.observed pair.old) (P.observed pair.new) (λ turns. turns ≡ half_sync First result.0 ++ half_sync Second result.1) }
    ensures first { result.0 ≡ false → (P.observed pair.new).dark ≡ false → (P.observed pair.new).first_lost ≡ true }
    ensures second { result.1 ≡ false → (P.observed pair.new).dark ≡ false → (P.observed pair.new).second_lost ≡ true }
    ensures dark { (P.observed pair.old).dark ≡ true → (result.0 ≡ false) × (result.1 ≡ false) }
{
    let first = sync_half(pair, Half::First);
    let second = sync_half(pair, Half::Second);
    (first, second)
}

/// Writes to the disks that are there; where none is, to the first once more, which fails.
pub(crate) fn write_there<P: Pair>(
    pair: &mut P,
    first: bool,
    second: bool,
    offset: u64,
    bytes: &[u8],
) -> (bool, bool)
    requires { AreGone (P.observed pair.old) first second }
    ensures turns { PairGrows (P.observed pair.old) (P.observed pair.new) (λ turns. turns ≡ there_write first second offset bytes.now result.0 result.1) }
    ensures gone { AreGone (P.observed pair.new) result.0 result.1 }
    ensures stay { StayGone first second result.0 result.1 }
    ensures dark { (P.observed pair.old).dark ≡ true → (result.0 ≡ false) × (result.1 ≡ false) }
{
    match (first, second) {
        (true, true) => write_both(pair, offset, bytes),
        (true, false) => (write_half(pair, Half::First, offset, bytes), false),
        (false, true) => (false, write_half(pair, Half::Second, offset, bytes)),
        (false, false) => {
            write_half(pair, Half::First, offset, bytes);
            (false, false)
        }
    }
}

/// Syncs the disks that are there; where none is, the first once more, which fails.
pub(crate) fn sync_there<P: Pair>(pair: &mut P, first: bool, second: bool) -> (bool, bool)
    requires { AreGone (P.observed pair.old) first second }
    ensures turns { PairGrows (P.observed pair.old) (P.observed pair.new) (λ turns. turns ≡ there_sync first second result.0 result.1) }
    ensures gone { AreGone (P.observed pair.new) result.0 result.1 }
    ensures stay { StayGone first second result.0 result.1 }
    ensures dark { (P.observed pair.old).dark ≡ true → (result.0 ≡ false) × (result.1 ≡ false) }
{
    match (first, second) {
        (true, true) => sync_both(pair),
        (true, false) => (sync_half(pair, Half::First), false),
        (false, true) => (false, sync_half(pair, Half::Second)),
        (false, false) => {
            sync_half(pair, Half::First);
            (false, false)
        }
    }
}

/// The length of the file on one disk, unless that is lost.
pub(crate) fn length_half<P: Pair>(pair: &mut P, disk: Half) -> Option<u64>
    ensures turns { PairGrows (P.observed pair.old) (P.observed pair.new) (λ turns. turns ≡ loss (is_some result) disk) }
    ensures gone { is_some result ≡ false → (P.observed pair.new).dark ≡ false → is_lost (P.observed pair.new) disk ≡ true }
    ensures lost { is_lost (P.observed pair.old) disk ≡ true → is_some result ≡ false }
    ensures dark { (P.observed pair.old).dark ≡ true → is_some result ≡ false }
    ensures length { IfLogged (P.observed pair.old) (λ log. IfSome result (λ count. HasOf log disk (λ file. count ≡ length file))) }
{
    match pair.length(disk) {
        Ok(count) => Some(count),
        Err(_) => None,
    }
}

/// The length of the file on the first disk that is there, and which are there after that.
pub(crate) fn length_there<P: Pair>(
    pair: &mut P,
    first: bool,
    second: bool,
) -> (Option<u64>, bool, bool)
    requires { AreGone (P.observed pair.old) first second }
    ensures turns { PairGrows (P.observed pair.old) (P.observed pair.new) (λ turns. turns ≡ there_look first second result.1 result.2) }
    ensures gone { AreGone (P.observed pair.new) result.1 result.2 }
    ensures stay { StayGone first second result.1 result.2 }
    ensures dark { (P.observed pair.old).dark ≡ true → result.0 ≡ None }
    ensures some { is_some result.0 ≡ (result.1 || result.2) }
    ensures length { IfLogged (P.observed pair.old) (λ log. IfSome result.0 (λ count. OneHas log (λ file. count ≡ length file))) }
{
    match (first, second) {
        (true, true) => match length_half(pair, Half::First) {
            Some(count) => (Some(count), true, true),
            None => {
                let count = length_half(pair, Half::Second);
                (count, false, count.is_some())
            }
        },
        (true, false) => {
            let count = length_half(pair, Half::First);
            (count, count.is_some(), false)
        }
        (false, true) => {
            let count = length_half(pair, Half::Second);
            (count, false, count.is_some())
        }
        (false, false) => {
            length_half(pair, Half::First);
            (None, false, false)
        }
    }
}

/// Reads from one disk, and says whether it is there after that.
pub(crate) fn read_half<P: Pair>(pair: &mut P, disk: Half, offset: u64, buf: &mut [u8]) -> bool
    ensures turns { PairGrows (P.observed pair.old) (P.observed pair.new) (λ turns. turns ≡ loss result disk) }
    ensures gone { result ≡ false → (P.observed pair.new).dark ≡ false → is_lost (P.observed pair.new) disk ≡ true }
    ensures lost { is_lost (P.observed pair.old) disk ≡ true → result ≡ false }
    ensures dark { (P.observed pair.old).dark ≡ true → result ≡ false }
    ensures bytes { IfLogged (P.observed pair.old) (λ log. result ≡ true → HasOf log disk (λ file. buf.new ≡ file_part file offset (length buf.old))) }
    ensures size { length buf.new ≡ length buf.old }
{
    match pair.read_at(disk, offset, buf) {
        Ok(()) => true,
        Err(_) => false,
    }
}

/// Reads from the first disk that is there, and says which are there after that: where one is, the bytes were read.
pub(crate) fn read_there<P: Pair>(
    pair: &mut P,
    first: bool,
    second: bool,
    offset: u64,
    buf: &mut [u8],
) -> (bool, bool)
    requires { AreGone (P.observed pair.old) first second }
    ensures turns { PairGrows (P.observed pair.old) (P.observed pair.new) (λ turns. turns ≡ there_look first second result.0 result.1) }
    ensures gone { AreGone (P.observed pair.new) result.0 result.1 }
    ensures stay { StayGone first second result.0 result.1 }
    ensures dark { (P.observed pair.old).dark ≡ true → (result.0 || result.1) ≡ false }
    ensures bytes { IfLogged (P.observed pair.old) (λ log. (result.0 || result.1) ≡ true → OneHas log (λ file. buf.new ≡ file_part file offset (length buf.old))) }
    ensures size { length buf.new ≡ length buf.old }
{
    match (first, second) {
        (true, true) => {
            let done = read_half(pair, Half::First, offset, buf);
            if done {
                return (true, true);
            }
            let there = read_half(pair, Half::Second, offset, buf);
            (false, there)
        }
        (true, false) => (read_half(pair, Half::First, offset, buf), false),
        (false, true) => (false, read_half(pair, Half::Second, offset, buf)),
        (false, false) => {
            read_half(pair, Half::First, offset, buf);
            (false, false)
        }
    }
}
