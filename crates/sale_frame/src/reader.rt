//! The reader of frames, and a frame's length.
ghost use Rattle.std.specs.Prelude.{◌≡◌, ◌<◌, ◌≤◌, ◌↔◌, ℕ, List, [], ◌++◌, length, drop, Some, None, if◌then◌else◌, IfOk, OnOk, OnErr, MatchOption};
ghost use Rattle.std.specs.Option.{option_copied};
ghost use Rattle.sale_frame.specs.Decode.{is_frame};
ghost use Rattle.std.specs.Borrow.{sem};
ghost use Rattle.std.specs.Io.BufRead.{Rests};
ghost use Rattle.std.specs.Int.{w32, to_be_bytes};
ghost use Rattle.sale_frame.specs.Grammar.{IsPayloadLength, BeginsWithLength, BeginsWithPayload, IsIncompleteFrame};
ghost use Rattle.sale_frame.specs.Steps.{IsFrameFault, TakesFrame, frame_step, GivesPayload, ReadsFrame};
ghost use Rattle.sale_frame.specs.declared.fault.FrameFault.{FrameFault};
ghost use Rattle.sale_frame.specs.contracts.reader.FrameReader.{the_row};

use super::fault::FrameFault;
use gw_bytes::{FRAME_LENGTH_SIZE, LONGEST_PAYLOAD};
use std::alloc::{AllocError, Global};
use std::marker::Model;

/// The least room after the waiting bytes of a new buffer: two of the largest chunks, so that a usual payload, which
/// comes in one chunk or two, never needs another buffer.
const ROOM: usize = 8_192;

/// A reader of one till's stream.
///
/// Contracts see it as the bytes that wait: those that were fed and aren't returned yet, from a
/// length on.
#[derive(Drop)]
pub struct FrameReader {
    buffer: Vec<u8>,
    /// Where the waiting bytes begin. Those of payloads that were returned stay before it until the buffer is used
    /// again: to move the rest at each payload would take time in the square of the stream's length.
    start: usize,
}

impl Model for FrameReader {
    ghost use Rattle.std.specs.Prelude.{◌≤◌, ℕ, List, drop, vec_len};

    ghost Value = { List ℕ };

    ghost view = { λ r. drop r.start r.buffer.items };

    ghost invariant = { λ r. r.start ≤ vec_len r.buffer };
}

/// The length that the first four bytes spell.
fn length_at(bytes: &[u8]) -> Option<u32>
    ensures { MatchOption result (length bytes.now < 4) (BeginsWithLength bytes.now) }
{
    bytes
        .first_chunk::<FRAME_LENGTH_SIZE>()
        .map(|head| u32::from_be_bytes(*head))
}

/// The payload that the bytes begin with, where it is whole.
fn payload_at(waiting: &[u8]) -> Result<Option<&[u8]>, FrameFault>
    ensures { ReadsFrame waiting.now result }
{
    let Some(length) = length_at(waiting) else {
        return Ok(None);
    };
    match length {
        0 => Err(FrameFault::Zero),
        1..=LONGEST_PAYLOAD => Ok(whole(waiting, length as usize)),
        _ => Err(FrameFault::TooLong { length }),
    }
}

/// The payload of this length after its four bytes, where it is whole.
fn whole(waiting: &[u8], length: usize) -> Option<&[u8]>
    requires length { IsPayloadLength length }
    requires begins { BeginsWithLength waiting.now length }
    ensures { MatchOption result (IsIncompleteFrame waiting.now)
        (λ payload. BeginsWithPayload waiting.now payload.now) }
{
    waiting.get(FRAME_LENGTH_SIZE..FRAME_LENGTH_SIZE + length)
}

impl FrameReader {
    /// A reader that nothing was fed to, with room for the first chunks.
    pub fn new(alloc: Global) -> Result<FrameReader, AllocError>
        ensures { IfOk result (λ reader. reader ≡ []) }
    {
        Ok(FrameReader {
            buffer: Vec::with_capacity(alloc, ROOM)?,
            start: 0,
        })
    }

    /// Takes the next chunk of the stream, of at most 4,096 bytes; nothing of it where there is no memory.
    ///
    /// A chunk that has no room after the buffered bytes moves those that wait to the beginning of a
    /// new buffer. That has as much room again as waits, and two chunks at least, so a byte is
    /// moved three times at most for each byte fed, however many wait. Where nothing waits, the buffer is used again,
    /// so a payload that fits takes no memory.
    pub fn feed(&mut self, alloc: Global, bytes: &[u8]) -> Result<(), AllocError>
        requires { length bytes.now ≤ 4096 }
        ensures ok { OnOk result (self.new ≡ self.old ++ bytes.now) }
        ensures err { OnErr result (self.new ≡ self.old) }
    {
        self.reuse();
        // A new buffer, and not the old one moved to its beginning: with as much room again as waits, the bytes that
        // are moved stay in proportion to those that are fed.
        if self.buffer.capacity() - self.buffer.len() < bytes.len() {
            let waiting = &self.buffer[self.start..];
            let mut buffer = Vec::with_capacity(alloc, waiting.len() + waiting.len().max(ROOM))?;
            buffer.extend_from_slice(waiting)?;
            self.buffer = buffer;
            self.start = 0;
        }
        self.buffer.extend_from_slice(bytes)
    }

    /// Uses the buffer from its beginning again where nothing waits.
    fn reuse(&mut self)
        ensures { self.new ≡ self.old }
    {
        if self.start == self.buffer.len() {
            self.buffer.clear();
            self.start = 0;
        }
    }

    /// The next payload, without its length; `None` where it is not whole yet.
    ///
    /// A fault is for good, since nothing says where the next frame would begin: nothing is taken, and each later call returns it too, whatever is
    /// fed.
    pub fn next(&mut self) -> Result<Option<&[u8]>, FrameFault>
        // Once the payload is no longer borrowed, what waits is what comes after its frame.
        ensures* step { sem 𝓛 (Rests the_row self.entry (TakesFrame self.old (frame_step result))) }
        ensures payload { (payload : List ℕ) → GivesPayload result payload
            ↔ BeginsWithPayload self.old payload }
        ensures none { (result ≡ Ok None) ↔ IsIncompleteFrame self.old }
        ensures fault { (fault : FrameFault) → (result ≡ Err fault) ↔ IsFrameFault self.old fault }
    {
        let payload = payload_at(&self.buffer[self.start..])?;
        if let Some(payload) = payload {
            self.start += FRAME_LENGTH_SIZE + payload.len();
        }
        Ok(payload)
    }
}

/// The payload of one whole frame and nothing else; `None` of other bytes.
pub fn framed_payload(bytes: &[u8]) -> Option<&[u8]>
    ensures payload { option_copied result ≡ (if is_frame bytes.now then Some (drop 4 bytes.now) else None) }
{
    let Ok(Some(payload)) = payload_at(bytes) else {
        return None;
    };
    if FRAME_LENGTH_SIZE + payload.len() != bytes.len() {
        return None;
    }
    Some(payload)
}

/// The four bytes of length before a payload of this many bytes, most significant first.
pub fn frame_length(payload: usize) -> [u8; 4]
    requires { IsPayloadLength payload }
    ensures { result ≡ to_be_bytes w32 payload }
{
    (payload as u32).to_be_bytes()
}
