//! Values: moments, amounts, digits, identifiers, names and letters.
use anyhow::ensure;
use case_files::push_result_bytes;
use gw_base::{
    Condition, Currency, Ident, bcd_read, bcd_write, byte_of_437, char_of_437, minor_of, stamp,
};
use std::alloc::AllocError;
use std::str;

fn push_line(out: &mut String, text: &[u8]) -> anyhow::Result<()> {
    write!(out, "> {}\n", str::from_utf8(text)?)?;
    Ok(())
}

fn push_number(out: &mut String, number: Option<u64>) -> Result<(), AllocError> {
    match number {
        Some(number) => write!(out, "> {number}\n"),
        None => out.push_str("> none\n"),
    }
}

/// Appends the identifier of these bytes, of which there are at most 40, or `> none`.
pub fn push_ident_40(out: &mut String, text: &[u8]) -> Result<(), AllocError> {
    match Ident::<40>::of(text) {
        Some(ident) => write!(out, "> {ident}\n"),
        None => out.push_str("> none\n"),
    }
}

/// Appends the identifier of these bytes, of which there are at most two, or `> none`.
pub fn push_ident_2(out: &mut String, text: &[u8]) -> Result<(), AllocError> {
    match Ident::<2>::of(text) {
        Some(ident) => write!(out, "> {ident}\n"),
        None => out.push_str("> none\n"),
    }
}

/// Appends the code of a currency, or `> none`.
fn push_currency(out: &mut String, currency: Option<Currency>) -> anyhow::Result<()> {
    match currency {
        Some(currency) => push_line(out, &currency.code()),
        None => Ok(out.push_str("> none\n")?),
    }
}

/// The currency of this code.
fn currency_of(code: &str) -> Option<Currency> {
    let [first, second, third] = code.as_bytes() else {
        return None;
    };
    Currency::from_code(&[*first, *second, *third])
}

/// Appends the six bytes of digits of a number.
fn push_digits(out: &mut String, number: u64) -> anyhow::Result<()> {
    ensure!(number < 1_000_000_000_000, "a long number");
    let mut bytes = [0; 6];
    bcd_write(number, &mut bytes);
    push_result_bytes(out, &bytes)?;
    Ok(())
}

/// Appends the number of bytes of digits, or the fault.
pub fn push_read(out: &mut String, bytes: &[u8]) -> anyhow::Result<()> {
    ensure!(bytes.len() <= 6, "many digits");
    match bcd_read(bytes) {
        Ok(number) => write!(out, "> {number}\n")?,
        Err(fault) => write!(out, "> {fault}\n")?,
    }
    Ok(())
}

/// Appends the letter of a byte of code page 437, and the byte of that letter.
fn push_letter(out: &mut String, byte: u8) -> Result<(), AllocError> {
    let letter = char_of_437(byte);
    write!(out, "> {letter} {:02x}\n", byte_of_437(letter))
}

fn push_stamp(out: &mut String, seconds: &str) -> anyhow::Result<()> {
    push_line(out, &stamp(seconds.parse::<i64>()?))
}

fn push_amount(out: &mut String, numeral: &str) -> anyhow::Result<()> {
    Ok(push_number(out, minor_of(numeral.as_bytes()))?)
}

fn push_digits_of(out: &mut String, number: &str) -> anyhow::Result<()> {
    push_digits(out, number.parse::<u64>()?)
}

fn push_currency_number(out: &mut String, number: &str) -> anyhow::Result<()> {
    push_currency(out, Currency::from_number(number.parse::<u16>()?))
}

fn push_letter_of(out: &mut String, byte: &str) -> anyhow::Result<()> {
    Ok(push_letter(out, u8::from_str_radix(byte, 16)?)?)
}

/// Appends the condition of this name, or `> none`.
fn push_condition(out: &mut String, name: &str) -> anyhow::Result<()> {
    let condition = Condition::from_name(name.as_bytes()).map(Condition::name);
    Ok(write!(out, "> {}\n", condition.unwrap_or("none"))?)
}

/// Appends the result of a question on a value.
pub fn push_value(out: &mut String, word: &str, text: &str) -> anyhow::Result<()> {
    match word {
        "stamp" => push_stamp(out, text),
        "amount" => push_amount(out, text),
        "digits_of" => push_digits_of(out, text),
        "currency" => push_currency(out, currency_of(text)),
        "currency_number" => push_currency_number(out, text),
        "letter" => push_letter_of(out, text),
        _ => push_condition(out, text),
    }
}
