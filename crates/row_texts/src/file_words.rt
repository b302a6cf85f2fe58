//! Files of records, in words: bytes in hexadecimal, `xN` for N zeros, and `T1` or `T2` for a slot with an open Intent of that terminal.
use crate::tables::{halves, push_form};
use std::alloc::{AllocError, Global};
use std::test::Fail;

/// The fields of an open Intent of a terminal, each in hexadecimal and with its size.
const INTENT: &str =
    "a5 1;01 1;01 1;025331 41;0254% 41;0131 11;0141 81;0132 36;000000001099 6;0978 2;000000 3;ffffffff 4;00 8;00 20";

/// Appends so many zeros.
fn push_zeros(bytes: &mut Vec<u8>, count: usize) -> Result<(), AllocError> {
    for _ in 0..count {
        bytes.push(0)?;
    }
    Ok(())
}

/// Appends a field: its bytes, and zeros up to its size.
fn push_field(alloc: Global, file: &mut Vec<u8>, field: &str) -> Result<(), Fail> {
    let (digits, size) = halves(field);
    let bytes = hex::decode(alloc, digits)?;
    file.extend_from_slice(&bytes)?;
    push_zeros(file, size.parse::<usize>()?.saturating_sub(bytes.len()))?;
    Ok(())
}

/// Appends a slot with an open Intent of the terminal whose name ends in this digit.
fn push_intent(alloc: Global, file: &mut Vec<u8>, digit: &str) -> Result<(), Fail> {
    let mut fields = String::new(alloc);
    push_form(&mut fields, INTENT, &[digit])?;
    for field in fields.split(';') {
        push_field(alloc, file, field)?;
    }
    Ok(())
}

/// Appends what a word of a file says.
fn push_word(alloc: Global, file: &mut Vec<u8>, word: &str) -> Result<(), Fail> {
    match word {
        "T1" => push_intent(alloc, file, "31"),
        "T2" => push_intent(alloc, file, "32"),
        _ => match word.strip_prefix("x") {
            Some(count) => {
                push_zeros(file, count.parse::<usize>()?)?;
                Ok(())
            }
            None => {
                file.extend_from_slice(&hex::decode(alloc, word)?)?;
                Ok(())
            }
        },
    }
}

/// The file of these words.
pub fn file_of(alloc: Global, words: &str) -> Result<Vec<u8>, Fail> {
    let mut file = Vec::new(alloc);
    for word in words.split_whitespace() {
        push_word(alloc, &mut file, word)?;
    }
    Ok(file)
}
