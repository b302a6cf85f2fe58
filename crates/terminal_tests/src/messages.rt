//! Messages of terminals, read and written, and the lines of their blocks.
use crate::fields::push_fields;
use arrayvec::ArrayVec;
use case_files::{push_bytes, push_result_bytes};
use std::alloc::AllocError;
use zvt_apdu::Apdu;
use zvt_bmp::law_fields_fit;
use zvt_msg::{Lines437, PtMessage, read_pt, write_pt};

/// The APDU whose class, instruction and data these bytes are.
pub fn apdu_of(bytes: &[u8]) -> Option<Apdu<'_>> {
    match bytes {
        [class, instr, body @ ..] => Some(Apdu {
            class: *class,
            instr: *instr,
            body,
        }),
        _ => None,
    }
}

/// Appends a message: its word and what it has.
fn push_message(out: &mut String, message: &PtMessage<'_>) -> Result<(), AllocError> {
    match message {
        PtMessage::Ack => out.push_str("ack"),
        PtMessage::Nack(error_code) => write!(out, "nack {error_code:02x}"),
        PtMessage::Intermediate(code) => write!(out, "intermediate {code:02x}"),
        PtMessage::Line(text) => {
            out.push_str("line ")?;
            push_bytes(out, text)
        }
        PtMessage::Block(objects) => {
            out.push_str("block ")?;
            push_bytes(out, objects)
        }
        PtMessage::Status(fields) => {
            out.push_str("status")?;
            push_fields(out, fields)
        }
        PtMessage::Completion => out.push_str("completion"),
        PtMessage::Abort(Some(result_code)) => write!(out, "abort {result_code:02x}"),
        PtMessage::Abort(None) => out.push_str("abort"),
        PtMessage::Other => out.push_str("other"),
    }
}

/// Appends the message of an APDU, or the fault.
pub fn push_read(out: &mut String, apdu: &Apdu<'_>) -> Result<(), AllocError> {
    out.push_str("> ")?;
    match read_pt(apdu) {
        Ok(message) => push_message(out, &message)?,
        Err(fault) => write!(out, "{fault}")?,
    }
    out.push_str("\n")
}

/// Appends the lines to print of a block.
pub fn push_lines(out: &mut String, block: &[u8]) -> Result<(), AllocError> {
    for line in Lines437::over(block) {
        push_result_bytes(out, line)?;
    }
    Ok(())
}

/// Appends how many lines to print a block has.
pub fn push_count(out: &mut String, block: &[u8]) -> Result<(), AllocError> {
    let count = Lines437::over(block).count();
    write!(out, "> {count}\n")
}

/// The written form of the message of an APDU, where it is no block.
fn rewritten(apdu: &Apdu<'_>) -> Option<ArrayVec<u8, 512>> {
    law_fields_fit();
    let mut out = ArrayVec::new();
    match read_pt(apdu) {
        Ok(PtMessage::Ack) => write_pt(&PtMessage::Ack, &mut out),
        Ok(PtMessage::Nack(error_code)) => write_pt(&PtMessage::Nack(error_code), &mut out),
        Ok(PtMessage::Intermediate(code)) => write_pt(&PtMessage::Intermediate(code), &mut out),
        Ok(PtMessage::Line(text)) if text.len() <= 500 => write_pt(
            &PtMessage::Line(text),
            &mut out,
        ),
        Ok(PtMessage::Status(fields)) => write_pt(&PtMessage::Status(fields), &mut out),
        Ok(PtMessage::Completion) => write_pt(&PtMessage::Completion, &mut out),
        Ok(PtMessage::Abort(result_code)) => write_pt(&PtMessage::Abort(result_code), &mut out),
        _ => return None,
    }
    Some(out)
}

/// Appends the written form of the message of an APDU.
pub fn push_rewritten(out: &mut String, apdu: &Apdu<'_>) -> Result<(), AllocError> {
    match rewritten(apdu) {
        Some(written) => push_result_bytes(out, written.as_slice()),
        None => out.push_str("> none\n"),
    }
}
