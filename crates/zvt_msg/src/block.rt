//! The objects of a block to print.

ghost use Rattle.std.specs.Prelude.{◌≡◌, ◌≤◌, length, IfSome};
ghost use Rattle.zvt_tlv.specs.Grammar.{value_of};
ghost use Rattle.zvt_tlv.specs.ObjectsDecode.{decode_tlv_objects};
ghost use Rattle.zvt_msg.specs.BlockDecode.{decode_container, left_inside, bytes_left, decode_block};
ghost use Rattle.zvt_msg.specs.inner.Results.{ReturnsNextTlvObject, ReturnsBlock, ReturnsContainer};

use zvt_tlv::{Object, Tlv, TlvFault};

/// The tag of a block's container.
pub(crate) const CONTAINER: u32 = 0x06;

/// The tag of an object of the container that holds lines.
pub(crate) const TEXT: u32 = 0x25;

/// The tag of a line.
pub(crate) const LINE: u32 = 0x07;

/// The objects of a block, which fill the container that its data are, or the offset in the data of the first that is
/// malformed. Data that are no container have their fault at 0.
pub(crate) fn read_block(apdu_data: &[u8]) -> Result<&[u8], TlvFault>
    ensures { ReturnsBlock result (decode_block apdu_data.now) }
{
    let Some(bytes) = container(apdu_data) else {
        return Err(TlvFault { at: 0 });
    };
    let left = left(bytes);
    if left > 0 {
        return Err(TlvFault {
            at: apdu_data.len() - left,
        });
    }
    Ok(bytes)
}

/// The value of the container that the data are.
fn container(apdu_data: &[u8]) -> Option<&[u8]>
    ensures value { ReturnsContainer result (decode_container apdu_data.now) }
    ensures within { IfSome result (λ bytes. length bytes.now ≤ length apdu_data.now) }
{
    let mut tlv = Tlv::over(apdu_data);
    let object = next_object(&mut tlv)?;
    if object.tag != CONTAINER || tlv.offset() < apdu_data.len() {
        return None;
    }
    Some(object.value)
}

/// How many of the bytes are left from the first malformed object on, which may be inside of one that holds lines: 0 where
/// there is none. The number left is counted from the end, since an object inside knows nothing of what is before it.
fn left(bytes: &[u8]) -> usize
    ensures left { result ≡ bytes_left bytes.now }
    ensures bound { result ≤ length bytes.now }
{
    let mut tlv = Tlv::over(bytes);
    while let Some(object) = next_object(&mut tlv) {
        let inside = left_inside(&object);
        if inside > 0 {
            return inside + (bytes.len() - tlv.offset());
        }
    }
    bytes.len() - tlv.offset()
}

/// How many of an object's bytes are left from the first malformed object inside of it on: 0 where it holds no lines.
fn left_inside(object: &Object<'_>) -> usize
    ensures left { result ≡ left_inside (value_of object.now) }
    ensures bound { result ≤ length object.now.value.now }
{
    if object.tag == TEXT {
        left_over(object.value)
    } else {
        0
    }
}

/// How many of the bytes are left from the first malformed object on. Nothing is looked for inside of the objects.
fn left_over(bytes: &[u8]) -> usize
    ensures left { result ≡ length (decode_tlv_objects bytes.now).rest }
    ensures bound { result ≤ length bytes.now }
{
    let mut tlv = Tlv::over(bytes);
    while let Some(_) = next_object(&mut tlv) {}
    bytes.len() - tlv.offset()
}

/// The next object; `None` where no well-formed one follows, and then the reader stays.
pub(crate) fn next_object<'a>(tlv: &mut Tlv<'a>) -> Option<Object<'a>>
    ensures { ReturnsNextTlvObject tlv.old result tlv.new }
{
    match tlv.next() {
        Ok(object) => object,
        Err(_) => None,
    }
}
