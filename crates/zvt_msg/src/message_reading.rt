//! Reading a message of a terminal.

ghost use Rattle.std.specs.Prelude.{◌≡◌, ◌↔◌, Err, IfOk};
ghost use Rattle.zvt_apdu.specs.Grammar.{value_of};
ghost use Rattle.zvt_bmp.specs.Decode.{decode_status};
ghost use Rattle.zvt_msg.specs.declared.fault.PtFault.{PtFault};
ghost use Rattle.zvt_msg.specs.Message.{MessageValue, value_of as message_value};
ghost use Rattle.zvt_msg.specs.Numbers.{NumbersFitFields};
ghost use Rattle.zvt_msg.specs.MessageGrammar.{SpellsPtMessage, HasPtFault};
ghost use Rattle.zvt_msg.specs.BlockDecode.{decode_block};
ghost use Rattle.zvt_msg.specs.MessageDecode.{first_byte_of, after_first_byte, status_or_fault, block_or_fault, decode_pt_message};
ghost use Rattle.zvt_msg.specs.Results.{IsPtMessage, ReturnsPtMessage};

use crate::block::read_block;
use crate::fault::PtFault;
use crate::message::PtMessage;
use zvt_apdu::Apdu;
use zvt_bmp::read_fields;

/// The message that an APDU of a terminal spells. Its text or objects borrow from the APDU's data.
pub fn read_pt<'a>(apdu: &Apdu<'a>) -> Result<PtMessage<'a>, PtFault>
    ensures message { (message : MessageValue) → IsPtMessage result message ↔ SpellsPtMessage (value_of apdu.now) message }
    ensures fault { (fault : PtFault) → (result ≡ Err fault) ↔ HasPtFault (value_of apdu.now) fault }

    // The result, by the function that computes it.
    ensures computes { ReturnsPtMessage result (decode_pt_message (value_of apdu.now)) }

    // A status that was read can be written again.
    ensures numbers { IfOk result (λ message. NumbersFitFields (message_value message)) }
{
    read_message(apdu)
}

/// What [`read_pt`] returns, by the function that computes it. It is apart from it for the prover alone: the relation
/// follows from this.
#[tactic(auto, unfolding(crate::specs::MessageDecode::decode_pt_message))]
fn read_message<'a>(apdu: &Apdu<'a>) -> Result<PtMessage<'a>, PtFault>
    ensures computes { ReturnsPtMessage result (decode_pt_message (value_of apdu.now)) }
    ensures numbers { IfOk result (λ message. NumbersFitFields (message_value message)) }
{
    match (apdu.class, apdu.instr) {
        (0x80, 0x00) => Ok(PtMessage::Ack),
        (0x84, error_code) => Ok(PtMessage::Nack(error_code)),
        (0x04, 0xFF) => Ok(PtMessage::Intermediate(first(apdu.body).unwrap_or(0))),
        (0x04, 0x0F) => status(apdu.body),
        (0x06, 0xD1) => Ok(PtMessage::Line(after_first_byte(apdu.body))),
        (0x06, 0xD3) => block(apdu.body),
        (0x06, 0x0F) => Ok(PtMessage::Completion),
        (0x06, 0x1E) => Ok(PtMessage::Abort(first(apdu.body))),
        _ => Ok(PtMessage::Other),
    }
}

fn first(apdu_data: &[u8]) -> Option<u8>
    ensures { result ≡ first_byte_of apdu_data.now }
{
    apdu_data.first().copied()
}

fn after_first_byte(apdu_data: &[u8]) -> &[u8]
    ensures { result.now ≡ after_first_byte apdu_data.now }
{
    match apdu_data {
        [] => &[],
        [_, text @ ..] => text,
    }
}

fn status(apdu_data: &[u8]) -> Result<PtMessage<'_>, PtFault>
    ensures computes { ReturnsPtMessage result (status_or_fault (decode_status apdu_data.now)) }
    ensures numbers { IfOk result (λ message. NumbersFitFields (message_value message)) }
{
    match read_fields(apdu_data) {
        Ok(fields) => Ok(PtMessage::Status(fields)),
        Err(fault) => Err(PtFault::Field(fault)),
    }
}

fn block(apdu_data: &[u8]) -> Result<PtMessage<'_>, PtFault>
    ensures computes { ReturnsPtMessage result (block_or_fault (decode_block apdu_data.now)) }
    ensures numbers { IfOk result (λ message. NumbersFitFields (message_value message)) }
{
    match read_block(apdu_data) {
        Ok(objects) => Ok(PtMessage::Block(objects)),
        Err(fault) => Err(PtFault::Tlv(fault)),
    }
}
