//! The slots of a journal's file that is in memory.
ghost use Rattle.std.specs.Prelude.{◌≡◌, ◌≢◌, ◌+◌, ◌*◌, ◌^◌, ◌<◌, Err, IfOk, length, slice_index};
ghost use Rattle.gw_site.specs.Outside.{file_part};
ghost use Rattle.jrn_log.specs.Decode.{decode_slots};
ghost use Rattle.jrn_log.specs.Opening.{IsExactlyTooLong, IsExactlyTruncated};
ghost use Rattle.jrn_log.specs.inner.FileReader.{AreBodiesRead};

use crate::fault::OpenFault;
use crate::layout::SLOT_SIZE;
use crate::read::{Taken, take_slot};
use gw_base::Bodies;
use std::alloc::Global;

/// The bodies of the open slots of a journal's file, which has at most so many slots.
///
/// It refuses what [`Journal::open`](crate::Journal::open) refuses, and a disk is not asked.
pub fn read_slots(alloc: Global, slots: u32, file: &[u8]) -> Result<Bodies, OpenFault>
    ensures bodies { IfOk result (λ bodies. bodies ≡ decode_slots file.now) }
    ensures too_long { IsExactlyTooLong slots file.now result }
    ensures truncated { IsExactlyTruncated slots file.now result }
    ensures memory { result ≢ Err OpenFault.Disk }
{
    let length = file.len() as u64;
    if length > SLOT_SIZE as u64 * u64::from(slots) + 1 {
        return Err(OpenFault::TooLong { length });
    }
    if length <= 1 {
        return Ok(Bodies::new(Vec::new(alloc)));
    }
    bodies_in(alloc, file)
}

/// The bodies of the open slots of a file of more than one byte.
fn bodies_in(alloc: Global, file: &[u8]) -> Result<Bodies, OpenFault>
    requires some { 1 < length file.now }
    requires small { length file.now < 2 ^ 40 }
    ensures reads { AreBodiesRead file.now result }
    ensures memory { result ≢ Err OpenFault.Disk }
{
    let size = file.len() as u64;
    let mut bodies = Vec::new(alloc);
    for slot in 0..(file.len() - 1) / SLOT_SIZE + 1 {
        match take_slot(&mut bodies, &slot_at(file, slot), size) {
            Ok(Taken::More) => {}
            Ok(Taken::End) => return Ok(Bodies::new(bodies)),
            Err(fault) => return Err(fault),
        }
    }
    unreachable!()
}

/// A slot of a file, with zeros past the file's end.
fn slot_at(file: &[u8], slot: usize) -> [u8; 256]
    requires { 256 * slot < length file.now }
    ensures { result ≡ file_part file.now (256 * slot) 256 }
{
    let mut bytes = [0; SLOT_SIZE];
    read_part(file, (SLOT_SIZE * slot) as u64, &mut bytes);
    bytes
}

/// Fills a buffer with the bytes of a file in memory from an offset on, and zeros past its end.
pub fn read_part(file: &[u8], offset: u64, buf: &mut [u8])
    ensures { buf.new ≡ file_part file.now offset (length buf.old) }
{
    for (index, byte) in buf.iter_mut().enumerate() {
        *byte = byte_at(file, offset, index);
    }
}

/// The file's byte so many after an offset, or zero past its end.
fn byte_at(file: &[u8], offset: u64, count: usize) -> u8
    ensures { result ≡ slice_index file.now (offset + count) }
{
    match (offset as usize).checked_add(count) {
        Some(index) => file.get(index).copied().unwrap_or(0),
        None => 0,
    }
}
