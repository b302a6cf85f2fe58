//! The forms of a field's length, and the value after it.

ghost use Rattle.std.specs.Prelude.{◌≡◌, ◌<◌, ◌≤◌, length, IfOk, IfSome, Some};
ghost use Rattle.zvt_bmp.specs.inner.Results.{ReturnsFieldLength, ReturnsFieldValue};
ghost use Rattle.zvt_bmp.specs.Decode.{length_digit, decode_llvar, decode_lllvar, decode_field_length, tlv_length_or_fault, decode_field_value};
ghost use Rattle.zvt_bmp.specs.inner.Sizes.{HasFormSize};
ghost use Rattle.zvt_bmp.specs.Table.{length_form_of};
ghost use Rattle.zvt_tlv.specs.Decode.{decode_tlv_length};

use zvt_tlv::tlv_length;

/// The form of the length of a field's value.
#[derive(Clone, Copy, PartialEq, Eq)]
pub(crate) enum LengthForm {
    /// Always so many bytes.
    Fixed(usize),
    /// In two bytes `F0` to `F9`, a decimal digit each.
    Llvar,
    /// In three such bytes.
    Lllvar,
    /// As of a TLV object.
    Tlv,
}

impl LengthForm {
    /// The form of the field with this number, if it is known.
    pub(crate) fn of(number: u8) -> Option<LengthForm>
        ensures { result ≡ length_form_of number }
    {
        match number {
            0x19 | 0x27 | 0x8A | 0x8C | 0xA0 => Some(LengthForm::Fixed(1)),
            0x0D | 0x0E | 0x17 | 0x49 | 0x87 => Some(LengthForm::Fixed(2)),
            0x0B | 0x0C | 0x37 | 0x88 | 0xAA => Some(LengthForm::Fixed(3)),
            0x29 => Some(LengthForm::Fixed(4)),
            0xBA => Some(LengthForm::Fixed(5)),
            0x04 => Some(LengthForm::Fixed(6)),
            0x3B => Some(LengthForm::Fixed(8)),
            0x2A => Some(LengthForm::Fixed(15)),
            0x22 | 0x23 | 0x2D | 0x8B | 0xA7 => Some(LengthForm::Llvar),
            0x24 | 0x2E | 0x3C | 0x60 | 0x92 | 0x9A | 0xAF => Some(LengthForm::Lllvar),
            0x06 => Some(LengthForm::Tlv),
            _ => None,
        }
    }
}

/// Why bytes begin with no length, or with no value after it.
#[derive(Clone, Copy, PartialEq, Eq)]
pub(crate) enum LengthFault {
    /// A byte that no length of this form has there.
    Wrong,
    /// The data ends before the value does.
    Truncated,
}

/// The digit of a byte `F0` to `F9` of a length; `None` for any other byte.
pub fn digit_of(byte: u8) -> Option<usize>
    ensures digit { result ≡ length_digit byte }
    ensures bound { IfSome result (λ digit. digit < 10) }
{
    match byte {
        0xF0..=0xF9 => Some(usize::from(byte - 0xF0)),
        _ => None,
    }
}

/// A length in two bytes. A wrong byte is reported before a missing one.
fn llvar(bytes: &[u8]) -> Result<(usize, &[u8]), LengthFault>
    ensures length { ReturnsFieldLength result (decode_llvar bytes.now) }
    ensures shorter { IfOk result (λ found. length found.1.now ≤ length bytes.now) }
{
    match bytes {
        [tens, units, rest @ ..] => match (digit_of(*tens), digit_of(*units)) {
            (Some(tens), Some(units)) => Ok((10 * tens + units, rest)),
            _ => Err(LengthFault::Wrong),
        },
        [tens] if digit_of(*tens).is_none() => Err(LengthFault::Wrong),
        _ => Err(LengthFault::Truncated),
    }
}

/// A length in three bytes. A wrong byte is reported before a missing one.
fn lllvar(bytes: &[u8]) -> Result<(usize, &[u8]), LengthFault>
    ensures length { ReturnsFieldLength result (decode_lllvar bytes.now) }
    ensures shorter { IfOk result (λ found. length found.1.now ≤ length bytes.now) }
{
    match bytes {
        [] => Err(LengthFault::Truncated),
        [hundreds, rest @ ..] => match digit_of(*hundreds) {
            Some(hundreds) => {
                let (length, rest) = llvar(rest)?;
                Ok((100 * hundreds + length, rest))
            }
            None => Err(LengthFault::Wrong),
        },
    }
}

/// A length of the forms of TLV objects.
fn tlv(bytes: &[u8]) -> Result<(usize, &[u8]), LengthFault>
    ensures length { ReturnsFieldLength result (tlv_length_or_fault bytes.now (decode_tlv_length bytes.now)) }
    ensures shorter { IfOk result (λ found. length found.1.now ≤ length bytes.now) }
{
    match tlv_length(bytes) {
        Some((length, size)) => Ok((length, &bytes[size..])),
        None => match bytes {
            [0x80 | 0x83..=0xFF, ..] => Err(LengthFault::Wrong),
            _ => Err(LengthFault::Truncated),
        },
    }
}

impl LengthForm {
    /// The length of this form that the bytes begin with, and what follows it.
    fn length(self, bytes: &[u8]) -> Result<(usize, &[u8]), LengthFault>
        ensures length { ReturnsFieldLength result (decode_field_length self bytes.now) }
        ensures size { IfOk result (λ found. HasFormSize (Some self) found.0) }
        ensures shorter { IfOk result (λ found. length found.1.now ≤ length bytes.now) }
    {
        match self {
            LengthForm::Fixed(size) => Ok((size, bytes)),
            LengthForm::Llvar => llvar(bytes),
            LengthForm::Lllvar => lllvar(bytes),
            LengthForm::Tlv => tlv(bytes),
        }
    }

    /// The value that the bytes begin with after its length of this form, and what follows it.
    #[tactic(auto, unfolding(crate::specs::Decode::decode_field_value))]
    pub(crate) fn value(self, bytes: &[u8]) -> Result<(&[u8], &[u8]), LengthFault>
        ensures value { ReturnsFieldValue result (decode_field_value self bytes.now) }
        ensures size { IfOk result (λ found. HasFormSize (Some self) (length found.0.now)) }
        ensures shorter { IfOk result (λ found. length found.1.now ≤ length bytes.now) }
    {
        let (length, bytes) = self.length(bytes)?;
        // The length is read whole before the value is looked for: a wrong byte of it is reported first.
        if bytes.len() < length {
            return Err(LengthFault::Truncated);
        }
        Ok(bytes.split_at(length))
    }
}
