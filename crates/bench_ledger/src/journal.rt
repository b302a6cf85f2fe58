//! Bodies of a made-up journal: approved payments of ten tills at thirty-two terminals, or reconciliations alone.
use gw_base::{Ident, Key};
use std::alloc::{AllocError, Global};

/// How many tills there are.
const TILLS: u32 = 10;

/// How many terminals there are.
pub const TERMINALS: u32 = 32;

/// The minor units of each payment.
const UNITS: [u8; 6] = [0, 0, 0, 0, 0x10, 0x99];

/// The number of the euro.
const EURO: [u8; 2] = [0x09, 0x78];

/// The ASCII digit of a number's last digit.
fn digit(number: u32) -> u8 {
    match u8::try_from(number % 10) {
        Ok(value) => b'0'.wrapping_add(value),
        Err(_) => b'0',
    }
}

/// A number of two digits.
fn two_digits(number: u32) -> [u8; 2] {
    [digit(number / 10), digit(number)]
}

/// A ServiceID: a number of ten digits.
fn service_id(number: u32) -> [u8; 10] {
    let mut text = [b'0'; 10];
    let mut rest = number;
    for cell in text.iter_mut().rev() {
        *cell = digit(rest);
        rest /= 10;
    }
    text
}

/// A number of six digits, two in each byte.
fn trace_bytes(number: u32) -> [u8; 3] {
    [packed(number / 10000), packed(number / 100), packed(number)]
}

/// The last two digits of a number in one byte.
fn packed(number: u32) -> u8 {
    match u8::try_from(number / 10 % 10 * 16 + number % 10) {
        Ok(value) => value,
        Err(_) => 0,
    }
}

/// Writes the bytes at an offset of the body.
fn write(body: &mut [u8; 255], offset: usize, bytes: &[u8]) {
    for (cell, byte) in body.iter_mut().skip(offset).zip(bytes.iter()) {
        *cell = *byte;
    }
}

/// Writes a text with its length before it.
fn write_text(body: &mut [u8; 255], offset: usize, text: &[u8]) {
    match u8::try_from(text.len()) {
        Ok(length) => write(body, offset, &[length]),
        Err(_) => {}
    }
    write(body, offset.wrapping_add(1), text);
}

/// Writes the till, the terminal and the ServiceID of the request with this number.
fn write_key(body: &mut [u8; 255], number: u32) {
    write_text(body, 2, &two_digits(number % TILLS));
    write_text(body, 43, &two_digits(number % TERMINALS));
    write_text(body, 84, &service_id(number));
}

/// The Intent of the payment with this number.
pub fn payment(number: u32) -> [u8; 255] {
    let mut body = [0; 255];
    write(&mut body, 0, &[1, 1]);
    write_key(&mut body, number);
    write_text(&mut body, 95, b"20261128-000123");
    write_text(&mut body, 176, b"2026-11-28T09:30:00+01:00");
    write(&mut body, 212, &UNITS);
    write(&mut body, 218, &EURO);
    write(&mut body, 220, &trace_bytes(number / TERMINALS));
    write(&mut body, 223, &[0xFF; 4]);
    body
}

/// The approval of that payment, whose Intent is at twice its number.
pub fn approval(number: u32) -> [u8; 255] {
    let mut body = [0; 255];
    write(&mut body, 0, &[2, 1]);
    write(&mut body, 2, &number.wrapping_mul(2).to_be_bytes());
    write(
        &mut body,
        6,
        &trace_bytes((number / TERMINALS).wrapping_add(1)),
    );
    write(&mut body, 9, &[0x00, 0x17]);
    write(&mut body, 11, &UNITS);
    body
}

/// The reconciliation with this number.
fn settled(number: u32) -> [u8; 255] {
    let mut body = [0; 255];
    write(&mut body, 0, &[3, 1]);
    write_key(&mut body, number);
    write(&mut body, 95, &EURO);
    body
}

/// The bodies of so many records, two of each payment.
pub fn payments(alloc: Global, records: u32) -> Result<Vec<[u8; 255]>, AllocError> {
    let mut bodies = Vec::with_capacity(alloc, records as usize)?;
    for number in 0..records / 2 {
        bodies.push(payment(number))?;
        bodies.push(approval(number))?;
    }
    Ok(bodies)
}

/// The bodies of so many reconciliations.
pub fn reconciliations(alloc: Global, records: u32) -> Result<Vec<[u8; 255]>, AllocError> {
    let mut bodies = Vec::with_capacity(alloc, records as usize)?;
    for number in 0..records {
        bodies.push(settled(number))?;
    }
    Ok(bodies)
}

/// The terminal of the payment with this number.
pub fn poi_of(number: u32) -> Option<Ident<40>> {
    Ident::of(&two_digits(number % TERMINALS))
}

/// The key of the payment with this number.
pub fn key_of(number: u32) -> Option<Key> {
    Some(Key {
        sale: Ident::of(&two_digits(number % TILLS))?,
        poi: poi_of(number)?,
        service: Ident::of(&service_id(number))?,
    })
}
