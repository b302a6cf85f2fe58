//! The reader of a stream of APDUs.

ghost use Rattle.std.specs.Prelude.{◌≡◌, ◌≤◌, ◌↔◌, ℕ, List, [], ◌++◌, length, drop, vec_len, vec_capacity, IsNone, IsOkAnd, IfOk, IsErrOf};
ghost use Rattle.std.specs.Borrow.{sem};
ghost use Rattle.std.specs.Io.BufRead.{Rests};
ghost use Rattle.zvt_apdu.specs.contracts.reader.ApduReader.{the_row};
ghost use Rattle.zvt_apdu.specs.Grammar.{ApduValue, BeginsWithApdu, IsProperApduPrefix, BeginsTooLongApdu};
ghost use Rattle.zvt_apdu.specs.Results.{ReturnsApdu, IsApdu, LeavesBytes};
ghost use Rattle.zvt_apdu.specs.Decode.{DecodedApdu, decode_apdu};

use crate::apdu::Apdu;
use crate::fault::ApduFault;
use crate::header::first_apdu;
use std::alloc::{AllocError, Global};
use std::marker::Model;

/// Room for what may wait and a chunk: a proper prefix of an APDU has at most 12,004 bytes, and a chunk 4,096.
const BUFFER: usize = 16_384;

/// Reads the APDUs of a stream that arrives in chunks of any size.
///
/// Contracts see a reader as the bytes that wait: those fed since it was made or cleared, and not given as APDUs yet.
/// After each chunk call `next` until it returns `None`. After a fault the reader returns the same fault until it is
/// cleared.
#[derive(Debug, Drop)]
pub struct ApduReader {
    bytes: Vec<u8>,
    start: usize,
}

impl Model for ApduReader {
    ghost use Rattle.std.specs.Prelude.{◌≤◌, List, ℕ, drop};
    ghost use Rattle.std.specs.Vec.{vec_len, vec_capacity};

    ghost Value = { List ℕ };

    ghost view = { λ r. drop r.start r.bytes.items };

    ghost invariant = { λ r. (r.start ≤ vec_len r.bytes) × (16384 ≤ vec_capacity r.bytes) };
}

impl ApduReader {
    /// A reader of a new stream. No later call takes memory.
    pub fn new(alloc: Global) -> Result<ApduReader, AllocError>
        ensures { IfOk result (λ reader. reader ≡ []) }
    {
        Ok(ApduReader {
            bytes: Vec::with_capacity(alloc, BUFFER)?,
            start: 0,
        })
    }

    /// Forgets what waits, for a new stream.
    pub fn clear(&mut self)
        ensures { self.new ≡ [] }
    {
        self.bytes.clear();
        self.start = 0;
    }

    /// Takes the next chunk of the stream, of at most 4,096 bytes.
    ///
    /// What waits is moved to the beginning of the buffer here and not at each APDU, so that each byte of a stream is
    /// moved once at most.
    pub fn feed(&mut self, chunk: &[u8])
        requires chunk { length chunk.now ≤ 4096 }
        // `next` has given every APDU before.
        requires waits { decode_apdu self.old ≡ DecodedApdu.Incomplete }
        ensures { self.new ≡ self.old ++ chunk.now }
    {
        drop_prefix(&mut self.bytes, self.start);
        self.start = 0;
        self.bytes.extend_from_slice(chunk).unwrap();
    }

    /// The next APDU. Its data borrows from the buffer.
    pub fn next(&mut self) -> Result<Option<Apdu<'_>>, ApduFault>
        ensures whole { (apdu : ApduValue) → IsApdu result apdu ↔ ((rest : List ℕ) × BeginsWithApdu self.old apdu rest) }
        ensures none { IsOkAnd result IsNone ↔ IsProperApduPrefix self.old }
        ensures too_long { (n : ℕ) → IsErrOf result (ApduFault.TooLong n) ↔ BeginsTooLongApdu self.old n }

        // The result, by the function that decodes the bytes that wait.
        ensures computes { ReturnsApdu result (decode_apdu self.old) }

        // The bytes of an APDU that was given wait no more; without one all bytes still wait.
        ensures* ends { sem 𝓛 (Rests the_row self.entry (λ new. LeavesBytes self.old result new)) }
    {
        let Some((apdu, rest)) = first_apdu(&self.bytes[self.start..])? else {
            return Ok(None);
        };
        self.start = self.bytes.len() - rest.len();
        Ok(Some(apdu))
    }
}

/// Drops the first `count` bytes, and moves the others to the beginning. Nothing moves where none is dropped.
fn drop_prefix(bytes: &mut Vec<u8>, count: usize)
    requires { count ≤ vec_len bytes.old }
    ensures rest { bytes.new.items ≡ drop count bytes.old.items }
    ensures capacity { vec_capacity bytes.new ≡ vec_capacity bytes.old }
{
    if count > 0 {
        let end = bytes.len();
        bytes.copy_within(count..end, 0);
        bytes.truncate(end - count);
    }
}
