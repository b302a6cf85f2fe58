//! Reading the first APDU of bytes.

ghost use Rattle.std.specs.Prelude.{◌≡◌};
ghost use Rattle.gw_bytes.specs.Bytes.{AreBytes};
ghost use Rattle.zvt_apdu.specs.Decode.{decode_apdu, decode_apdu_data};
ghost use Rattle.zvt_apdu.specs.inner.FirstApdu.{ReturnsFirstApdu};

use crate::apdu::Apdu;
use crate::fault::ApduFault;
use gw_bytes::LONGEST_APDU_DATA;

/// The first APDU of the bytes and what follows it, or `None` where the bytes are less than one.
pub(crate) fn first_apdu(bytes: &[u8]) -> Result<Option<(Apdu<'_>, &[u8])>, ApduFault>
    ensures computes { ReturnsFirstApdu result (decode_apdu bytes.now) }
    ensures bytes { AreBytes bytes.now }
{
    match bytes {
        [class, instr, 0xFF, low, high, rest @ ..] => {
            with_data(*class, *instr, u16::from_le_bytes([*low, *high]), rest)
        }
        [class, instr, length, rest @ ..] if *length != 0xFF => {
            with_data(*class, *instr, u16::from(*length), rest)
        }
        _ => Ok(None),
    }
}

/// The APDU whose header was read, with its data from the `bytes` after the header.
fn with_data(
    class: u8,
    instr: u8,
    length: u16,
    bytes: &[u8],
) -> Result<Option<(Apdu<'_>, &[u8])>, ApduFault>
    ensures { ReturnsFirstApdu result (decode_apdu_data class instr length bytes.now) }
{
    // Checked before the data are there: an APDU above the limit is never whole, and isn't waited for.
    if length > LONGEST_APDU_DATA {
        return Err(ApduFault::TooLong { length });
    }
    let length = usize::from(length);
    if bytes.len() < length {
        return Ok(None);
    }
    let (apdu_data, rest) = bytes.split_at(length);
    Ok(Some((
        Apdu {
            class,
            instr,
            body: apdu_data,
        },
        rest,
    )))
}
