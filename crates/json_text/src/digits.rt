//! Digits (RFC 8259, section 6), many at once.
ghost use Rattle.std.specs.Prelude.{◌≤◌, length, take};
ghost use Rattle.json_text.specs.Number.{AreDigits};

use std::simd::prelude::*;

/// So many bytes are tested at once.
const LANES: usize = 16;

/// How many bytes at the beginning are digits. Of the last bytes, fewer than are tested at once, none is counted.
pub(crate) fn digits_len(bytes: &[u8]) -> usize
    ensures within { result ≤ length bytes.now }
    ensures digits { AreDigits (take result bytes.now) }
{
    let mut len = 0;
    while bytes.len() - len >= LANES {
        let digits = digit_lanes(u8x16::from_slice(&bytes[len..]));
        if digits < LANES {
            return len + digits;
        }
        len += LANES;
    }
    len
}

/// How many lanes at the beginning are digits; more than there are where all of them are.
#[inline(always)]
fn digit_lanes(lanes: u8x16) -> usize
    ensures { AreDigits (take result lanes) }
{
    let other = lanes.simd_lt(u8x16::splat(b'0')) | lanes.simd_ge(u8x16::splat(b'9' + 1));
    other.to_bitmask().trailing_zeros() as usize
}
