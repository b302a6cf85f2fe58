//! The writing of a message of a terminal.

ghost use Rattle.std.specs.Prelude.{◌≡◌, ◌+◌, ◌≤◌, ◌++◌, length};
ghost use Rattle.arrayvec.specs.ArrayVec.{array_vec_len};
ghost use Rattle.zvt_bmp.specs.Canonical.{HasFieldDigits};
ghost use Rattle.zvt_msg.specs.Message.{MessageValue, value_of};
ghost use Rattle.zvt_msg.specs.MessageCanonical.{HasPtMessageForm, canonical_pt_message};

use crate::block::CONTAINER;
use crate::message::PtMessage;
use arrayvec::ArrayVec;
use zvt_apdu::write_apdu;
use zvt_bmp::{Fields, write_fields};
use zvt_tlv::write_object;

/// Appends the one APDU of a message: a line with the attribute 0, a block with the shortest length, a status with its
/// known fields alone.
pub fn write_pt(message: &PtMessage<'_>, out: &mut ArrayVec<u8, 512>)
    requires form { HasPtMessageForm (value_of message.now) }
    requires fits { array_vec_len out.old + length (canonical_pt_message (value_of message.now)) ≤ 512 }
    ensures { out.new.items ≡ out.old.items ++ canonical_pt_message (value_of message.now) }
{
    match message {
        PtMessage::Ack => write_apdu(0x80, 0x00, &[], out),
        PtMessage::Nack(error_code) => write_apdu(0x84, *error_code, &[], out),
        PtMessage::Intermediate(status) => write_apdu(0x04, 0xFF, &[*status], out),
        PtMessage::Line(text) => write_line(text, out),
        PtMessage::Block(objects) => write_block(objects, out),
        PtMessage::Status(fields) => write_status(fields, out),
        PtMessage::Completion => write_apdu(0x06, 0x0F, &[], out),
        PtMessage::Abort(None) => write_apdu(0x06, 0x1E, &[], out),
        PtMessage::Abort(Some(result_code)) => write_apdu(0x06, 0x1E, &[*result_code], out),
        // `Other` has no spelling, so that the condition rules it out.
        PtMessage::Other => unreachable!(),
    }
}

/// A line has an attribute byte before its text; 0 asks for none.
fn write_line(text: &[u8], out: &mut ArrayVec<u8, 512>)
    requires { array_vec_len out.old + length (canonical_pt_message (MessageValue.Line text.now)) ≤ 512 }
    ensures { out.new.items ≡ out.old.items ++ canonical_pt_message (MessageValue.Line text.now) }
{
    let mut apdu_data: ArrayVec<u8, 512> = ArrayVec::new();
    apdu_data.push(0x00);
    apdu_data.try_extend_from_slice(text).unwrap();
    write_apdu(0x06, 0xD1, apdu_data.as_slice(), out);
}

fn write_block(objects: &[u8], out: &mut ArrayVec<u8, 512>)
    requires { array_vec_len out.old + length (canonical_pt_message (MessageValue.Block objects.now)) ≤ 512 }
    ensures { out.new.items ≡ out.old.items ++ canonical_pt_message (MessageValue.Block objects.now) }
{
    let mut apdu_data = ArrayVec::new();
    write_object(CONTAINER, objects, &mut apdu_data);
    write_apdu(0x06, 0xD3, apdu_data.as_slice(), out);
}

fn write_status(fields: &Fields, out: &mut ArrayVec<u8, 512>)
    requires digits { HasFieldDigits fields.now }
    requires fits { array_vec_len out.old + length (canonical_pt_message (MessageValue.Status fields.now)) ≤ 512 }
    ensures { out.new.items ≡ out.old.items ++ canonical_pt_message (MessageValue.Status fields.now) }
{
    let mut apdu_data = ArrayVec::new();
    write_fields(fields, &mut apdu_data);
    write_apdu(0x04, 0x0F, apdu_data.as_slice(), out);
}
