//! Plain bytes: those of a string, and those of a terminal's line, that are written as they are.
ghost use Rattle.std.specs.Prelude.{◌≡◌, ◌<◌, ◌≤◌, ◌∷◌, [], length, take, flat_map};
ghost use Rattle.std.specs.Bool.{OnFalse};
ghost use Rattle.json_text.specs.Canonical.{canonical_byte};
ghost use Rattle.sale_reply.specs.inner.ShownByte.{shown_byte};

use std::simd::prelude::*;

/// So many bytes are tested at once.
const LANES: usize = 16;

/// How many bytes at the beginning need no escape: those before the first that has to be escaped.
pub(crate) fn plain_len(bytes: &[u8]) -> usize
    ensures within { result ≤ length bytes.now }
    ensures plain { flat_map canonical_byte (take result bytes.now) ≡ take result bytes.now }
{
    let mut len = 0;
    while bytes.len() - len >= LANES {
        let plain = plain_lanes(u8x16::from_slice(&bytes[len..]));
        if plain < LANES {
            return len + plain;
        }
        len += LANES;
    }
    len + plain_rest_len(&bytes[len..])
}

/// How many of fewer bytes than there are lanes need no escape, at the beginning: they are tested at once, with spaces
/// after them.
#[inline(always)]
fn plain_rest_len(rest: &[u8]) -> usize
    requires { length rest.now < 16 }
    ensures within { result ≤ length rest.now }
    ensures plain { flat_map canonical_byte (take result rest.now) ≡ take result rest.now }
{
    let mut lanes = [b' '; LANES];
    lanes[..rest.len()].copy_from_slice(rest);
    let plain = plain_lanes(u8x16::from_array(lanes));
    if plain < rest.len() {
        plain
    } else {
        rest.len()
    }
}

/// How many lanes at the beginning need no escape; more than there are where none of them has to be escaped.
#[inline(always)]
fn plain_lanes(lanes: u8x16) -> usize
    ensures { flat_map canonical_byte (take result lanes) ≡ take result lanes }
{
    let escaped = lanes.simd_eq(u8x16::splat(b'"'))
        | lanes.simd_eq(u8x16::splat(b'\\'))
        | lanes.simd_lt(u8x16::splat(0x20));
    escaped.to_bitmask().trailing_zeros() as usize
}

/// How many bytes at the beginning of a terminal's line are written as themselves: they are printable ASCII, and need no
/// escape.
pub(crate) fn ascii_len(bytes: &[u8]) -> usize
    ensures within { result ≤ length bytes.now }
    ensures plain { flat_map shown_byte (take result bytes.now) ≡ take result bytes.now }
{
    let mut len = 0;
    while bytes.len() - len >= LANES {
        let plain = ascii_lanes(u8x16::from_slice(&bytes[len..]));
        if plain < LANES {
            return len + plain;
        }
        len += LANES;
    }
    while len < bytes.len() && !is_respelled(bytes[len]) {
        len += 1;
    }
    len
}

/// How many lanes at the beginning are written as themselves; more than there are where all of them are.
#[inline(always)]
fn ascii_lanes(lanes: u8x16) -> usize
    ensures { flat_map shown_byte (take result lanes) ≡ take result lanes }
{
    let respelled = lanes.simd_eq(u8x16::splat(b'"'))
        | lanes.simd_eq(u8x16::splat(b'\\'))
        | lanes.simd_lt(u8x16::splat(b' '))
        | lanes.simd_gt(u8x16::splat(b'~'));
    respelled.to_bitmask().trailing_zeros() as usize
}

/// Whether a byte of a terminal's line isn't written as itself: it isn't printable ASCII, or has to be escaped.
fn is_respelled(byte: u8) -> bool
    ensures { OnFalse result (shown_byte byte ≡ byte ∷ []) }
{
    byte == b'"' || byte == b'\\' || byte < b' ' || byte > b'~'
}
