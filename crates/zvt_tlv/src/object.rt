//! One TLV object: read from the beginning of bytes, and written.

ghost use Rattle.std.specs.Prelude.{◌≡◌, ◌+◌, ◌<◌, ◌≤◌, ◌++◌, ◌↔◌, ℕ, length, Some, IsNone, IfSome};
ghost use Rattle.arrayvec.specs.ArrayVec.{array_vec_len};
ghost use Rattle.zvt_tlv.specs.Grammar.{BeginsWithTlvLength, IsTag, canonical_tag, canonical_tlv_length, canonical_tlv_object};
ghost use Rattle.zvt_tlv.specs.Decode.{decode_tag, decode_tlv_length, decode_tlv_object};
ghost use Rattle.zvt_tlv.specs.Results.{ReturnsTag, ReturnsTlvLength, ReturnsFirstTlvObject};

use arrayvec::ArrayVec;

/// A TLV object: its tag, the bytes of which are the number's with the first one highest, and its value, which borrows
/// from what was read.
#[derive(Clone, Copy, Debug, PartialEq, Eq)]
pub struct Object<'a> {
    pub tag: u32,
    pub value: &'a [u8],
}

/// The tag that the bytes begin with, and what follows it.
fn first_tag(bytes: &[u8]) -> Option<(u32, &[u8])>
    ensures { ReturnsTag result (decode_tag bytes.now) }
{
    // A first byte whose low five bits are all 1 says that more bytes follow, and the top bit of each of these that one
    // more does. No tag of PA00P015 has more than three.
    match bytes {
        [first, rest @ ..] if *first % 32 != 31 => Some((u32::from(*first), rest)),
        [first, second, rest @ ..] if *second < 0x80 => {
            Some((u32::from_be_bytes([0, 0, *first, *second]), rest))
        }
        [first, second, third, rest @ ..] if *third < 0x80 => {
            Some((u32::from_be_bytes([0, *first, *second, *third]), rest))
        }
        _ => None,
    }
}

/// The length that the bytes begin with, and how many bytes it takes itself: one below `80`; two with `81` before the
/// length's byte; three with `82` before its two bytes, the high one first. `None` where they begin with no whole length of these forms.
pub fn tlv_length(bytes: &[u8]) -> Option<(usize, usize)>
    ensures some { (n size : ℕ) → (result ≡ Some (n, size)) ↔ BeginsWithTlvLength bytes.now n size }
    ensures none { IsNone result ↔ ((n size : ℕ) → BeginsWithTlvLength bytes.now n size → ⊥) }
    ensures within { IfSome result (λ found. found.1 ≤ length bytes.now) }

    // The result, by the function that computes it.
    ensures computes { ReturnsTlvLength bytes.now result (decode_tlv_length bytes.now) }
{
    first_length(bytes)
}

/// What [`tlv_length`] returns, by the function that computes it. It is apart from it for the prover alone: the relation
/// follows from this.
fn first_length(bytes: &[u8]) -> Option<(usize, usize)>
    ensures within { IfSome result (λ found. found.1 ≤ length bytes.now) }
    ensures computes { ReturnsTlvLength bytes.now result (decode_tlv_length bytes.now) }
{
    // `80` would begin a value without a stated length, and no APDU holds a longer one than two bytes say.
    match bytes {
        [length, ..] if *length < 0x80 => Some((usize::from(*length), 1)),
        [0x81, length, ..] => Some((usize::from(*length), 2)),
        [0x82, high, low, ..] => Some((usize::from(u16::from_be_bytes([*high, *low])), 3)),
        _ => None,
    }
}

/// The object that the bytes begin with, and what follows it.
#[tactic(auto, unfolding(crate::specs::Decode::decode_tlv_object))]
pub(crate) fn first_object(bytes: &[u8]) -> Option<(Object<'_>, &[u8])>
    ensures { ReturnsFirstTlvObject result (decode_tlv_object bytes.now) }
{
    let (tag, bytes) = first_tag(bytes)?;
    let (length, size) = first_length(bytes)?;
    let bytes = &bytes[size..];
    if bytes.len() < length {
        return None;
    }
    let (value, rest) = bytes.split_at(length);
    Some((Object { tag, value }, rest))
}

/// Appends an object: the bytes of its tag, its length in the shortest form, its value.
pub fn write_object(tag: u32, value: &[u8], out: &mut ArrayVec<u8, 512>)
    requires tag { IsTag tag }
    requires fits { array_vec_len out.old + length (canonical_tlv_object tag value.now) ≤ 512 }
    ensures { out.new.items ≡ out.old.items ++ canonical_tlv_object tag value.now }
{
    write_tag(tag, out);
    // The buffer bounds the value, so that its length fits.
    write_length(value.len() as u16, out);
    out.try_extend_from_slice(value).unwrap();
}

fn write_tag(tag: u32, out: &mut ArrayVec<u8, 512>)
    requires tag { tag < 16777216 }
    requires fits { array_vec_len out.old + length (canonical_tag tag) ≤ 512 }
    ensures { out.new.items ≡ out.old.items ++ canonical_tag tag }
{
    let [_, first, second, third] = tag.to_be_bytes();
    if tag < 0x100 {
        out.push(third);
    } else if tag < 0x1_0000 {
        out.push(second);
        out.push(third);
    } else {
        out.push(first);
        out.push(second);
        out.push(third);
    }
}

fn write_length(n: u16, out: &mut ArrayVec<u8, 512>)
    requires { array_vec_len out.old + length (canonical_tlv_length n) ≤ 512 }
    ensures { out.new.items ≡ out.old.items ++ canonical_tlv_length n }
{
    let [high, low] = n.to_be_bytes();
    if n < 0x80 {
        out.push(low);
    } else if n < 0x100 {
        out.push(0x81);
        out.push(low);
    } else {
        out.push(0x82);
        out.push(high);
        out.push(low);
    }
}
