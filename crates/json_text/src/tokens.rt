//! The tokens of a text: white space, strings, numbers and literal names, each from the offset at which the reader is.
ghost use Rattle.std.specs.Prelude.{◌≡◌, ◌≢◌, ◌+◌, ◌<◌, ◌≤◌, ◌++◌, [], length, take, drop, slice_index, string_bytes, false, IfErr, IfOk, OnOk};
ghost use Rattle.json_text.specs.Grammar.{is_space};
ghost use Rattle.json_text.specs.Number.{IsNumberText};
ghost use Rattle.json_text.specs.Scan.{inside};
ghost use Rattle.json_text.specs.ValueOf.{value_of};
ghost use Rattle.json_text.specs.inner.CharacterLeft.{IsSound, scan_within};
ghost use Rattle.json_text.specs.inner.NumberLeft.{EndsNumber, LeavesNumber, LeftOfNumber};
ghost use Rattle.json_text.specs.inner.ReaderStates.{ArePlain, NumberGrows, after, literal, literal_text, literal_tree, value};
ghost use Rattle.json_text.specs.inner.ByteFaults.{IsKindAt, IsNoMark};
ghost use Rattle.json_text.specs.inner.ReaderProgress.{CharacterEnds, CharacterRead, ColonRead, EndsOpen, IsByteAt, IsToken, Refused, RefusedCharacter, RefusedColon, RefusedInside, RefusedString, Skips, StringRead, ReadsOn};

use crate::character::{self, CharacterState, CharacterStep};
use crate::content::plain_str;
use crate::digits::digits_len;
use crate::fault::{FaultKind, ReadError, fault, not_json};
use crate::literal::Literal;
use crate::number::NumberState;
use crate::plain::plain_len;
use crate::tree::{Chars, Json, Numeral};
use std::alloc::{AllocError, Global};

/// How many bytes a text has room for at first where it isn't copied at once: most have fewer.
const USUAL: usize = 32;

/// White space between tokens (RFC 8259, section 2).
fn is_white(byte: u8) -> bool
    ensures { result ≡ is_space byte }
{
    byte == b' ' || byte == b'\t' || byte == b'\n' || byte == b'\r'
}

/// Passes white space.
pub(crate) fn skip_white(bytes: &[u8], offset: &mut usize)
    ensures stays { Skips bytes.now offset.old offset.new }
    ensures not_space { offset.new < length bytes.now → is_space (slice_index bytes.now offset.new) ≡ false }
    ensures forward { offset.old ≤ offset.new }
{
    while *offset < bytes.len() && is_white(bytes[*offset]) {
        *offset += 1;
    }
}

/// The first byte of the next token, which is not passed.
pub(crate) fn peek_token(bytes: &[u8], offset: &mut usize) -> Result<u8, ReadError>
    ensures token { IfOk result (λ byte. IsToken bytes.now offset.old offset.new byte) }
    ensures refused { IfErr result (λ error. EndsOpen bytes.now offset.old error) }
{
    skip_white(bytes, offset);
    if *offset < bytes.len() {
        Ok(bytes[*offset])
    } else {
        Err(not_json(*offset))
    }
}

/// Passes the colon between a name and its value.
pub(crate) fn pass_colon(bytes: &[u8], offset: &mut usize) -> Result<(), ReadError>
    ensures read { OnOk result (ColonRead bytes.now offset.old offset.new) }
    ensures forward { OnOk result (offset.old < offset.new) }
    ensures refused { IfErr result (λ error. RefusedColon bytes.now offset.old error) }
{
    let byte = peek_token(bytes, offset)?;
    if byte != b':' {
        return Err(not_json(*offset));
    }
    *offset += 1;
    Ok(())
}

/// The value of a literal name whose first letter has been passed.
fn read_literal(bytes: &[u8], offset: &mut usize, wanted: Literal) -> Result<Json, ReadError>
    ensures read { IfOk result (λ json. ReadsOn bytes.now offset.old (literal (drop 1 (literal_text wanted)) (literal_tree wanted)) offset.new (after (value_of json))) }
    ensures forward { OnOk result (offset.old ≤ offset.new) }
    ensures refused { IfErr result (λ error. Refused bytes.now offset.old (literal (drop 1 (literal_text wanted)) (literal_tree wanted)) error) }
{
    let text = wanted.text();
    let mut read = 1;
    while read < text.len() {
        if *offset >= bytes.len() || bytes[*offset] != text[read] {
            return Err(not_json(*offset));
        }
        *offset += 1;
        read += 1;
    }
    Ok(wanted.json())
}

/// The text of a string whose opening quotation mark has been passed, up to the closing one.
pub(crate) fn read_string(
    alloc: Global,
    bytes: &[u8],
    offset: &mut usize,
) -> Result<Chars, ReadError>
    requires { offset.old ≤ length bytes.now }
    ensures read { IfOk result (λ text. StringRead bytes.now offset.old [] offset.new text) }
    ensures quote { OnOk result (IsByteAt bytes.now offset.new 34) }
    ensures forward { OnOk result (offset.old ≤ offset.new) }
    ensures refused { IfErr result (λ error. RefusedString bytes.now offset.old [] error) }
{
    let start = *offset;
    let end = start + plain_len(&bytes[start..]);
    if end < bytes.len() && bytes[end] == b'"' {
        *offset = end;
        return Ok(Chars::of_plain(alloc, &bytes[start..end])?);
    }
    read_in_parts(alloc, bytes, offset)
}

/// The text of a string of which some characters are not plain.
fn read_in_parts(alloc: Global, bytes: &[u8], offset: &mut usize) -> Result<Chars, ReadError>
    requires { offset.old ≤ length bytes.now }
    ensures read { IfOk result (λ text. StringRead bytes.now offset.old [] offset.new text) }
    ensures quote { OnOk result (IsByteAt bytes.now offset.new 34) }
    ensures forward { OnOk result (offset.old ≤ offset.new) }
    ensures refused { IfErr result (λ error. RefusedString bytes.now offset.old [] error) }
{
    let mut text = String::with_capacity(alloc, USUAL)?;
    loop {
        take_plain(&mut text, bytes, offset)?;
        if *offset >= bytes.len() {
            return Err(not_json(*offset));
        }
        if bytes[*offset] == b'"' {
            return Ok(Chars::new(text));
        }
        let c = read_character(bytes, offset)?;
        text.push(c)?;
    }
}

/// Appends the plain characters that come next.
fn take_plain(text: &mut String, bytes: &[u8], offset: &mut usize) -> Result<(), AllocError>
    requires { offset.old ≤ length bytes.now }
    ensures read { OnOk result (StringRead bytes.now offset.old (string_bytes text.old) offset.new (string_bytes text.new)) }
    ensures forward { OnOk result (offset.old ≤ offset.new) }
    ensures within { OnOk result (offset.new ≤ length bytes.now) }
{
    let len = plain_len(&bytes[*offset..]);
    text.push_str(plain_str(&bytes[*offset..*offset + len]))?;
    *offset += len;
    Ok(())
}

/// The character of a string that comes next, which no quotation mark ends before it.
fn read_character(bytes: &[u8], offset: &mut usize) -> Result<char, ReadError>
    requires there { offset.old < length bytes.now }
    requires open { slice_index bytes.now offset.old ≢ 34 }
    ensures read { IfOk result (λ c. CharacterRead bytes.now offset.old offset.new c) }
    ensures forward { OnOk result (offset.old < offset.new) }
    ensures within { OnOk result (offset.new ≤ length bytes.now) }
    ensures refused { IfErr result (λ error. RefusedCharacter bytes.now offset.old error) }
{
    let byte = bytes[*offset];
    match character::first(byte) {
        CharacterStep::Whole(c) => {
            *offset += 1;
            Ok(c)
        }
        CharacterStep::Next(begun) => {
            *offset += 1;
            rest_of_character(bytes, offset, begun)
        }
        CharacterStep::Wrong => Err(fault(*offset, fault_between(byte))),
    }
}

/// The character of which some bytes have been passed.
fn rest_of_character(
    bytes: &[u8],
    offset: &mut usize,
    begun: CharacterState,
) -> Result<char, ReadError>
    requires within { offset.old ≤ length bytes.now }
    requires sound { IsSound begun }
    ensures read { IfOk result (λ c. CharacterEnds bytes.now offset.old begun offset.new c) }
    ensures forward { OnOk result (offset.old < offset.new) }
    ensures within { OnOk result (offset.new ≤ length bytes.now) }
    ensures refused { IfErr result (λ error. RefusedInside bytes.now offset.old begun error) }
{
    let mut within = begun;
    // The offset is written once, and not at each byte.
    let mut here = *offset;
    while here < bytes.len() {
        let byte = bytes[here];
        match within.next(byte) {
            CharacterStep::Whole(c) => {
                *offset = here + 1;
                return Ok(c);
            }
            CharacterStep::Next(next) => {
                here += 1;
                within = next;
            }
            CharacterStep::Wrong => return Err(fault(here, fault_inside(within, byte))),
        }
    }
    Err(not_json(here))
}

/// The kind of a byte between two characters with which none begins.
fn fault_between(byte: u8) -> FaultKind
    ensures { IsKindAt inside byte result }
{
    if byte < 0x80 {
        FaultKind::NotJson
    } else {
        FaultKind::BadUtf8
    }
}

/// The kind of a byte with which no character goes on.
fn fault_inside(within: CharacterState, byte: u8) -> FaultKind
    ensures { IsKindAt (scan_within within) byte result }
{
    match within {
        CharacterState::Utf8 { .. } => FaultKind::BadUtf8,
        _ => fault_between(byte),
    }
}

/// How many bytes at the beginning go on with the number, and what has then been read of it.
fn number_len(begun: NumberState, bytes: &[u8]) -> (usize, NumberState)
    ensures within { result.0 ≤ length bytes.now }
    ensures leads { NumberGrows begun (take result.0 bytes.now) result.1 }
    ensures plain { ArePlain (take result.0 bytes.now) }
    ensures ends { result.0 < length bytes.now → EndsNumber (LeftOfNumber result.1) (slice_index bytes.now result.0) }
{
    let mut len = 0;
    let mut last = begun;
    while len < bytes.len() {
        match last.next(bytes[len]) {
            Some(next) => last = next,
            None => return (len, last),
        }
        len += 1;
        if last.takes_digits() {
            len += digits_len(&bytes[len..]);
        }
    }
    (len, last)
}

/// The number that comes next, which begins so.
fn read_number(
    alloc: Global,
    bytes: &[u8],
    offset: &mut usize,
    begun: NumberState,
) -> Result<Json, ReadError>
    requires there { offset.old < length bytes.now }
    requires begins { LeavesNumber IsNumberText (slice_index bytes.now offset.old) begun }
    ensures read { IfOk result (λ json. ReadsOn bytes.now offset.old value offset.new (after (value_of json))) }
    ensures forward { OnOk result (offset.old < offset.new) }
    ensures refused { IfErr result (λ error. Refused bytes.now offset.old value error) }
{
    let start = *offset;
    let (len, last) = number_len(begun, &bytes[start + 1..]);
    *offset = start + 1 + len;
    if !last.is_whole() {
        return Err(not_json(*offset));
    }
    Ok(Json::Number(Numeral::of_plain(alloc, &bytes[start..*offset])?))
}

/// The number or the literal name that comes next.
pub(crate) fn read_scalar(
    alloc: Global,
    bytes: &[u8],
    offset: &mut usize,
    byte: u8,
) -> Result<Json, ReadError>
    requires token { IsByteAt bytes.now offset.old byte }
    requires other { IsNoMark byte }
    requires not_space { is_space byte ≡ false }
    ensures read { IfOk result (λ json. ReadsOn bytes.now offset.old value offset.new (after (value_of json))) }
    ensures forward { OnOk result (offset.old < offset.new) }
    ensures refused { IfErr result (λ error. Refused bytes.now offset.old value error) }
{
    if let Some(begun) = NumberState::first(byte) {
        return read_number(alloc, bytes, offset, begun);
    }
    let wanted = match byte {
        b'n' => Literal::Null,
        b't' => Literal::True,
        b'f' => Literal::False,
        _ => return Err(not_json(*offset)),
    };
    *offset += 1;
    read_literal(bytes, offset, wanted)
}
