//! The slots of a file, read in chunks.
ghost use Rattle.std.specs.Prelude.{◌≡◌, ◌≢◌, ◌+◌, ◌*◌, ◌^◌, ◌<◌, ◌≤◌, List, ℕ, length, vec_len, Ok, Err, IfOk};
ghost use Rattle.gw_site.specs.Failures.{Rose};
ghost use Rattle.gw_site.specs.Outside.{outside_of, file_part};
ghost use Rattle.gw_site.specs.Observed.{Grows, IfObserved};
ghost use Rattle.jrn_log.specs.JournalSteps.{Phase, ToRead, TakesSteps, RestsDark};
ghost use Rattle.jrn_log.specs.inner.FileReader.{BeginsWithSlots, AreSlotsTaken, IsChunkRead, AreBodiesRead, ReadTurns, IsToRead, read_phase};

use crate::fault::OpenFault;
use crate::layout::{BODY_SIZE, OPEN, SLOT_SIZE, SLOTS_OF_CHUNK};
use gw_base::Bodies;
use gw_site::{Failed, Site};
use std::alloc::Global;

/// How a look at slots went on.
#[derive(Clone, Copy)]
pub(crate) enum Taken {
    /// Each was open.
    More,
    /// One was closed.
    End,
}

/// Takes the body of the next slot where the slot is open. The file has `size` bytes.
pub(crate) fn take_slot(
    bodies: &mut Vec<[u8; 255]>,
    slot: &[u8],
    size: u64,
) -> Result<Taken, OpenFault>
    requires slot { length slot.now ≡ 256 }
    requires some { 1 < size }
    requires small { size < 2 ^ 40 }
    requires within { 256 * vec_len bodies.old < size }
    ensures within { 256 * vec_len bodies.new < size }
    ensures more { result ≡ Ok Taken.More → vec_len bodies.new ≡ vec_len bodies.old + 1 }
    ensures looked { result ≢ Err OpenFault.Disk }
    ensures taken { (file : List ℕ) → size ≡ length file → slot.now ≡ file_part file (256 * length bodies.old.items) 256
        → BeginsWithSlots file bodies.old.items → AreSlotsTaken file bodies.new.items result }
{
    if slot[0] != OPEN {
        return Ok(Taken::End);
    }
    let count = bodies.len();
    if SLOT_SIZE as u64 * (count as u64 + 1) >= size {
        return Err(OpenFault::Cut { slot: count as u32 });
    }
    let mut body = [0; BODY_SIZE];
    body.copy_from_slice(&slot[1..]);
    match bodies.push(body) {
        Ok(()) => Ok(Taken::More),
        Err(_) => Err(OpenFault::Memory),
    }
}

/// Takes the bodies of the next 16 slots up to the first that is closed. The file has `size` bytes.
fn take_slots(
    bodies: &mut Vec<[u8; 255]>,
    chunk: &[u8; 4096],
    size: u64,
) -> Result<Taken, OpenFault>
    requires some { 1 < size }
    requires small { size < 2 ^ 40 }
    requires within { 256 * vec_len bodies.old < size }
    ensures within { 256 * vec_len bodies.new < size }
    ensures more { result ≡ Ok Taken.More → vec_len bodies.new ≡ vec_len bodies.old + 16 }
    ensures looked { result ≢ Err OpenFault.Disk }
    ensures taken { (file : List ℕ) → size ≡ length file → chunk.now ≡ file_part file (256 * length bodies.old.items) 4096
        → BeginsWithSlots file bodies.old.items → AreSlotsTaken file bodies.new.items result }
{
    for index in 0..SLOTS_OF_CHUNK {
        let offset = SLOT_SIZE * index;
        match take_slot(bodies, &chunk[offset..offset + SLOT_SIZE], size) {
            Ok(Taken::More) => {}
            Ok(Taken::End) => return Ok(Taken::End),
            Err(fault) => return Err(fault),
        }
    }
    Ok(Taken::More)
}

/// Reads the next 16 slots of the site's file, which has `size` bytes.
// 16 slots are one page of 4,096 bytes: fewer calls than slot by slot, and no buffer that memory can refuse.
fn read_chunk<S: Site>(
    site: &mut S,
    bodies: &mut Vec<[u8; 255]>,
    size: u64,
) -> Result<Taken, OpenFault>
    requires some { 1 < size }
    requires small { size < 2 ^ 40 }
    requires within { 256 * vec_len bodies.old < size }
    ensures within { 256 * vec_len bodies.new < size }
    ensures more { result ≡ Ok Taken.More → vec_len bodies.new ≡ vec_len bodies.old + 16 }
    ensures found { IfObserved (S.observed site.old) (λ log. size ≡ length (outside_of log).file
        → BeginsWithSlots (outside_of log).file bodies.old.items → IsChunkRead (outside_of log).file bodies.new.items result) }
    ensures turns { Grows (S.observed site.old) (S.observed site.new) (ReadTurns result) }
    ensures steps { (first : Phase) → IsToRead first → IfObserved (S.observed site.old) (λ before. TakesSteps first (read_phase result) before (S.observed site.old) (S.observed site.new)) }
    ensures rests { RestsDark (S.observed site.old) (S.observed site.new) }
    ensures disk { result ≡ Err OpenFault.Disk → Rose (S.observed site.old).faults (S.observed site.new).faults }
    ensures later { (S.observed site.old).faults ≤ (S.observed site.new).faults }
{
    let mut chunk = [0; SLOT_SIZE * SLOTS_OF_CHUNK];
    match site.read_at(SLOT_SIZE as u64 * bodies.len() as u64, &mut chunk) {
        Ok(()) => take_slots(bodies, &chunk, size),
        Err(Failed) => Err(OpenFault::Disk),
    }
}

/// Reads the bodies of the open slots of the site's file, which has `size` bytes.
pub(crate) fn read_bodies<S: Site>(
    alloc: Global,
    site: &mut S,
    size: u64,
) -> Result<Bodies, OpenFault>
    requires some { 1 < size }
    requires small { size < 2 ^ 40 }
    ensures within { IfOk result (λ bodies. 256 * length bodies < size) }
    ensures reads { IfObserved (S.observed site.old) (λ log. size ≡ length (outside_of log).file → AreBodiesRead (outside_of log).file result) }
    ensures turns { Grows (S.observed site.old) (S.observed site.new) (ReadTurns result) }
    ensures steps { IfObserved (S.observed site.old) (λ before. TakesSteps ToRead (read_phase result) before (S.observed site.old) (S.observed site.new)) }
    ensures rests { RestsDark (S.observed site.old) (S.observed site.new) }
    ensures disk { result ≡ Err OpenFault.Disk → Rose (S.observed site.old).faults (S.observed site.new).faults }
    ensures later { (S.observed site.old).faults ≤ (S.observed site.new).faults }
{
    let mut bodies = Vec::new(alloc);
    'chunks: loop {
        match read_chunk(site, &mut bodies, size) {
            Ok(Taken::More) => {}
            Ok(Taken::End) => return Ok(Bodies::new(bodies)),
            Err(fault) => return Err(fault),
        }
    }
}
