//! The fields of a status, read and written.
use arrayvec::ArrayVec;
use case_files::push_result_bytes;
use std::alloc::AllocError;
use zvt_bmp::{Fields, law_fields_fit, read_fields, write_fields};

fn push_number(out: &mut String, word: &str, number: Option<u64>) -> Result<(), AllocError> {
    match number {
        Some(number) => write!(out, " {word} {number}"),
        None => Ok(()),
    }
}

fn push_result_code(out: &mut String, result_code: Option<u8>) -> Result<(), AllocError> {
    match result_code {
        Some(result_code) => write!(out, " result {result_code:02x}"),
        None => Ok(()),
    }
}

fn push_currency(out: &mut String, currency: Option<[u8; 2]>) -> Result<(), AllocError> {
    match currency {
        Some(currency) => write!(out, " currency {:04x}", u16::from_be_bytes(currency)),
        None => Ok(()),
    }
}

fn push_numbers(out: &mut String, fields: &Fields) -> Result<(), AllocError> {
    push_number(out, "amount", fields.amount)?;
    push_number(out, "trace", fields.trace.map(u64::from))?;
    push_number(out, "receipt", fields.receipt.map(u64::from))
}

/// Appends the fields that are there, and where the tail begins.
pub fn push_fields(out: &mut String, fields: &Fields) -> Result<(), AllocError> {
    push_result_code(out, fields.result)?;
    push_numbers(out, fields)?;
    push_currency(out, fields.currency)?;
    write!(out, " tail {}", fields.tail)
}

/// Appends the fields of bytes, or the fault.
pub fn push_read(out: &mut String, bytes: &[u8]) -> Result<(), AllocError> {
    out.push_str(">")?;
    match read_fields(bytes) {
        Ok(fields) => push_fields(out, &fields)?,
        Err(fault) => write!(out, " {fault}")?,
    }
    out.push_str("\n")
}

/// The written form of the fields of bytes.
fn rewritten(bytes: &[u8]) -> Option<ArrayVec<u8, 512>> {
    law_fields_fit();
    let Ok(fields) = read_fields(bytes) else {
        return None;
    };
    let mut out = ArrayVec::new();
    write_fields(&fields, &mut out);
    Some(out)
}

/// Appends the written form of the fields of bytes.
pub fn push_rewritten(out: &mut String, bytes: &[u8]) -> Result<(), AllocError> {
    match rewritten(bytes) {
        Some(written) => push_result_bytes(out, written.as_slice()),
        None => out.push_str("> none\n"),
    }
}
