//! Plain characters: those of a string that are one byte each and stand for themselves (RFC 8259, section 7), in ASCII.
ghost use Rattle.std.specs.Prelude.{◌≤◌, ◌↔◌, length, take, IsTrue};
ghost use Rattle.json_text.specs.inner.ReaderStates.{ArePlain, IsPlain};

use std::simd::prelude::*;

/// So many bytes are tested at once.
const LANES: usize = 16;

/// How many bytes at the beginning are plain characters, at least as far as none of them is another.
pub(crate) fn plain_len(bytes: &[u8]) -> usize
    ensures within { result ≤ length bytes.now }
    ensures plain { ArePlain (take result bytes.now) }
{
    let mut len = 0;
    while bytes.len() - len >= LANES {
        let plain = plain_lanes(u8x16::from_slice(&bytes[len..]));
        if plain < LANES {
            return len + plain;
        }
        len += LANES;
    }
    while len < bytes.len() && is_plain(bytes[len]) {
        len += 1;
    }
    len
}

/// How many lanes at the beginning are plain characters; more than there are where all of them are.
#[inline(always)]
fn plain_lanes(lanes: u8x16) -> usize
    ensures { ArePlain (take result lanes) }
{
    let other = lanes.simd_eq(u8x16::splat(b'"'))
        | lanes.simd_eq(u8x16::splat(b'\\'))
        | lanes.simd_lt(u8x16::splat(0x20))
        | lanes.simd_ge(u8x16::splat(0x80));
    other.to_bitmask().trailing_zeros() as usize
}

/// Whether the byte is a plain character.
fn is_plain(byte: u8) -> bool
    ensures { IsTrue result ↔ IsPlain byte }
{
    byte >= 0x20 && byte < 0x80 && byte != b'"' && byte != b'\\'
}
