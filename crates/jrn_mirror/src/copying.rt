//! The copying in an opening: one disk takes over what the other has.
ghost use Rattle.std.specs.Prelude.{◌≡◌, ◌≢◌, ◌≤◌, ◌<◌, ◌+◌, ◌-◌, min, true, is_some, length, get_or, ℕ, Some};
ghost use Rattle.jrn_mirror.specs.Mirrored.{IsLonger};
ghost use Rattle.jrn_mirror.specs.PairObserved.{PairObserved, IfLogged};
ghost use Rattle.jrn_mirror.specs.inner.Copying.{other_half, AreCopiedTo, ArePartCopiedTo, CopyGoesOn, AreLengths, HasLengths};
ghost use Rattle.jrn_mirror.specs.inner.Opening.{KeepsOpening, HaveSameFile};

use crate::halves::{read_half, write_half};
use crate::{Half, Pair};
use gw_bytes::LONGEST_CHUNK;

/// What is copied: the file of the disk `source`, which has `size` bytes, over that of the other one, which had `shorter` bytes.
#[derive(Clone, Copy)]
pub(crate) struct Copying {
    source: Half,
    size: u64,
    shorter: u64,
}

/// The first place from this one on at which the copy, of which so many bytes are known, differs from the original or ends.
fn next_difference(original: &[u8], copy: &[u8], known: usize, start: usize) -> usize
    requires same_size { length copy.now ≡ length original.now }
    requires inside { start ≤ length original.now }
    ensures after { start ≤ result }
    ensures within { result ≤ length original.now }
    ensures same { (index : ℕ) → start ≤ index → index < result → (index < known) × (get_or copy.now index 0 ≡ get_or original.now index 0) }
    ensures differs { result < length original.now → result < known → get_or copy.now result 0 ≢ get_or original.now result 0 }
{
    for index in start..original.len() {
        if index >= known || original[index] != copy[index] {
            return index;
        }
    }
    original.len()
}

/// The end of the run of differences from this place on.
fn end_of_run(original: &[u8], copy: &[u8], known: usize, start: usize) -> usize
    requires same_size { length copy.now ≡ length original.now }
    requires inside { start ≤ length original.now }
    ensures after { start ≤ result }
    ensures within { result ≤ length original.now }
    ensures differs { (index : ℕ) → start ≤ index → index < result → index < known → get_or copy.now index 0 ≢ get_or original.now index 0 }
{
    for index in start..original.len() {
        if index < known && original[index] == copy[index] {
            return index;
        }
    }
    original.len()
}

/// The other disk.
fn other(disk: Half) -> Half
    ensures { result ≡ other_half disk }
{
    match disk {
        Half::First => Half::Second,
        Half::Second => Half::First,
    }
}

/// How many of the bytes of a part, which begins at this offset and has `count` bytes, the copy had at first.
fn known_of(shorter: u64, offset: u64, count: usize) -> usize
    ensures { result ≡ min (shorter - offset) count }
{
    shorter.saturating_sub(offset).min(count as u64) as usize
}

/// Writes the runs of this part that differ, or lie past the end of the copy. Says whether the copy's disk is there after that.
fn copy_runs<P: Pair>(
    pair: &mut P,
    copying: Copying,
    offset: u64,
    original: &[u8],
    copy: &[u8],
) -> bool
    requires longer { IsLonger (other_half copying.source) copying.size copying.shorter }
    requires within { offset + length original.now ≤ copying.size }
    requires same_size { (length copy.now ≡ length original.now) × (length original.now ≤ 4096) }
    requires part { ArePartCopiedTo (P.observed pair.old) copying offset original.now copy.now 0 }
    ensures goes { CopyGoesOn (P.observed pair.old) (P.observed pair.new) copying.source true result }
    ensures copied { result ≡ true → AreCopiedTo (P.observed pair.new) copying (offset + length original.now) }
{
    let known = known_of(copying.shorter, offset, original.len());
    let to = other(copying.source);
    let mut begin = next_difference(original, copy, known, 0);
    while begin < original.len() {
        let end = end_of_run(original, copy, known, begin + 1);
        if !write_half(pair, to, offset + begin as u64, &original[begin..end]) {
            return false;
        }
        begin = next_difference(original, copy, known, end);
    }
    true
}

/// Copies one part of the file, for which there is room in both buffers. Says whether the source and the target are there
/// after that.
fn copy_part<P: Pair>(
    pair: &mut P,
    copying: Copying,
    offset: u64,
    original: &mut [u8],
    copy: &mut [u8],
) -> (bool, bool)
    requires longer { IsLonger (other_half copying.source) copying.size copying.shorter }
    requires within { offset + length original.old ≤ copying.size }
    requires same_size { (length copy.old ≡ length original.old) × (length original.old ≤ 4096) }
    requires copied { AreCopiedTo (P.observed pair.old) copying offset }
    ensures goes { CopyGoesOn (P.observed pair.old) (P.observed pair.new) copying.source result.0 result.1 }
    ensures copied { result.0 ≡ true → result.1 ≡ true → AreCopiedTo (P.observed pair.new) copying (offset + length original.old) }
{
    if !read_half(pair, copying.source, offset, original) {
        return (false, true);
    }
    if !read_half(pair, other(copying.source), offset, copy) {
        return (true, false);
    }
    (true, copy_runs(pair, copying, offset, original, copy))
}

/// Copies the file part by part. Says whether the source and the target are there after that: the copying ends if one is lost.
fn copy_file<P: Pair>(pair: &mut P, copying: Copying) -> (bool, bool)
    requires longer { IsLonger (other_half copying.source) copying.size copying.shorter }
    requires copied { AreCopiedTo (P.observed pair.old) copying 0 }
    ensures goes { CopyGoesOn (P.observed pair.old) (P.observed pair.new) copying.source result.0 result.1 }
    ensures copied { result.0 ≡ true → result.1 ≡ true → AreCopiedTo (P.observed pair.new) copying copying.size }
{
    let mut original = [0; LONGEST_CHUNK];
    let mut copy = [0; LONGEST_CHUNK];
    let mut offset: u64 = 0;
    while offset < copying.size {
        let count = (copying.size - offset).min(LONGEST_CHUNK as u64) as usize;
        let (source_left, target_left) = copy_part(
            pair,
            copying,
            offset,
            &mut original[..count],
            &mut copy[..count],
        );
        if !source_left || !target_left {
            return (source_left, target_left);
        }
        offset += count as u64;
    }
    (true, true)
}

/// What is to be copied, by the lengths of both files: the longer one, or the first of two equally long ones, over the other.
fn longer_of(first: u64, second: u64) -> Copying
    ensures longer { IsLonger (other_half result.source) result.size result.shorter }
    ensures lengths { HasLengths result first second }
{
    if second <= first {
        Copying {
            source: Half::First,
            size: first,
            shorter: second,
        }
    } else {
        Copying {
            source: Half::Second,
            size: second,
            shorter: first,
        }
    }
}

/// Copies the longer file over the other. Says which disks are there after that.
fn copy_longer<P: Pair>(pair: &mut P, first: u64, second: u64) -> (bool, bool)
    requires { IfLogged (P.observed pair.old) (λ log. AreLengths log (Some first) (Some second)) }
    ensures goes { KeepsOpening (P.observed pair.old) (P.observed pair.new) true true result.0 result.1 }
    ensures copied { result.0 ≡ true → result.1 ≡ true → HaveSameFile (P.observed pair.new) }
{
    let copying = longer_of(first, second);
    let (source_left, target_left) = copy_file(pair, copying);
    match copying.source {
        Half::First => (source_left, target_left),
        Half::Second => (target_left, source_left),
    }
}

/// Makes the two files one, where both disks are there, by their lengths. Says which disks are there after that.
pub(crate) fn copy_apart<P: Pair>(
    pair: &mut P,
    first: Option<u64>,
    second: Option<u64>,
) -> (bool, bool)
    requires { is_some first ≡ true → is_some second ≡ true → IfLogged (P.observed pair.old) (λ log. AreLengths log first second) }
    ensures goes { KeepsOpening (P.observed pair.old) (P.observed pair.new) (is_some first) (is_some second) result.0 result.1 }
    ensures copied { result.0 ≡ true → result.1 ≡ true → HaveSameFile (P.observed pair.new) }
{
    match (first, second) {
        (Some(first), Some(second)) => copy_longer(pair, first, second),
        (Some(_), None) => (true, false),
        (None, Some(_)) => (false, true),
        (None, None) => (false, false),
    }
}
