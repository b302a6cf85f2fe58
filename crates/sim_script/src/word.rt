//! The words of a line.
ghost use Rattle.std.specs.Prelude.{◌≡◌, ◌≤◌, ◌==◌, ◌&&◌, length, option_map, IfOk, ℕ};
ghost use Rattle.std.specs.List.{list_all};
ghost use Rattle.std.specs.Result.{result_ok};
ghost use Rattle.hex.specs.Hex.{decode_of};
ghost use Rattle.sale_frame.specs.Grammar.{IsPayloadLength, frame};
ghost use Rattle.gw_base.specs.Bcd.{is_bcd};
ghost use Rattle.gw_script.specs.Decode.{is_visible, number, split_at_space};
ghost use Rattle.gw_script.specs.site.Decode.{byte_number, chunk, currency_among, currency_word, link_number, name_word, number_within, password_word, said};
ghost use Rattle.sim_script.specs.Words.{chunk_value, is_bcd_byte, parts_value};

use crate::line::Chunk;
use gw_base::{Bytes, Currency, Ident};
use gw_bytes::{FRAME_LENGTH_SIZE, LONGEST_CHUNK};
use hex::FromHexError;
use sale_frame::frame_length;
use std::alloc::{AllocError, Global};

/// The most bytes of a said text: with its length it is one chunk.
const SAID_LIMIT: usize = LONGEST_CHUNK - FRAME_LENGTH_SIZE;

/// The first word of a text, and what follows the space that ends it.
pub(crate) fn first_word(text: &str) -> Option<(&str, &str)>
    ensures { option_map parts_value result ≡ split_at_space text.now }
{
    text.split_once(' ')
}

/// The number that a word spells in decimal digits, without sign or leading zeros.
pub(crate) fn number(word: &str) -> Option<u64>
    ensures { result ≡ number word.now }
{
    // `parse` takes both, and a number has one spelling.
    if word.starts_with('+') || word.len() > 1 && word.starts_with('0') {
        return None;
    }
    word.parse().ok()
}

/// The number that a word spells, where it lies between these.
pub(crate) fn number_within(least: u64, most: u64, word: &str) -> Option<u64>
    ensures { result ≡ number_within least most word.now }
{
    let n = number(word)?;
    if n < least || n > most {
        return None;
    }
    Some(n)
}

/// The number of a terminal that a word spells.
pub(crate) fn link_number(word: &str) -> Option<u16>
    ensures { result ≡ link_number word.now }
{
    let n = number(word)?;
    u16::try_from(n).ok()
}

/// The number of one byte that a word spells.
pub(crate) fn byte_number(word: &str) -> Option<u8>
    ensures { result ≡ byte_number word.now }
{
    let n = number(word)?;
    u8::try_from(n).ok()
}

/// Whether a byte is printable ASCII and no space.
fn is_visible(byte: u8) -> bool
    ensures { result ≡ is_visible byte }
{
    (0x21..=0x7E).contains(&byte)
}

/// Whether each byte is printable ASCII and no space.
fn are_visible(bytes: &[u8]) -> bool
    ensures { result ≡ list_all is_visible bytes.now }
{
    bytes.iter().all(|byte| is_visible(*byte))
}

/// The name or POIID that a text is, which is one word.
pub(crate) fn name_word(word: &str) -> Option<Ident<40>>
    ensures { result ≡ name_word word.now }
{
    if !are_visible(word.as_bytes()) {
        return None;
    }
    Ident::of(word.as_bytes())
}

/// The first of these currencies that has these letters.
fn currency_among(currencies: &[Currency], letters: &[u8]) -> Option<Currency>
    ensures { result ≡ currency_among currencies.now letters.now }
{
    let (first, rest) = currencies.split_first()?;
    if letters == first.code().as_slice() {
        return Some(*first);
    }
    currency_among(rest, letters)
}

/// The currency that a word names.
pub(crate) fn currency_word(word: &str) -> Option<Currency>
    ensures { result ≡ currency_word word.now }
{
    currency_among(&Currency::ALL, word.as_bytes())
}

/// The bytes of a hexadecimal text.
pub(crate) fn decoded(alloc: Global, text: &str) -> Result<Option<Bytes>, AllocError>
    ensures { IfOk result (λ bytes. bytes ≡ result_ok (decode_of text.now)) }
{
    match hex::decode(alloc, text) {
        Ok(bytes) => Ok(Some(Bytes::new(bytes))),
        Err(FromHexError::OutOfMemory) => Err(AllocError),
        Err(_) => Ok(None),
    }
}

/// Whether both halves of a byte are decimal digits.
fn is_bcd_byte(byte: u8) -> bool
    ensures { result ≡ is_bcd_byte byte }
{
    byte / 16 <= 9 && byte % 16 <= 9
}

/// Whether every byte holds two decimal digits.
fn hold_digits(bytes: &[u8]) -> bool
    ensures { result ≡ list_all is_bcd_byte bytes.now }
{
    bytes.iter().all(|byte| is_bcd_byte(*byte))
}

/// Whether these bytes hold six decimal digits.
#[tactic(auto, using(crate::proofs::WordLemmas::all_bcd))]
fn is_password(bytes: &[u8]) -> bool
    ensures { result ≡ ((length bytes.now == 3) && is_bcd bytes.now) }
{
    bytes.len() == 3 && hold_digits(bytes)
}

/// The password of six digits that a word spells.
pub(crate) fn password_word(alloc: Global, word: &str) -> Result<Option<[u8; 3]>, AllocError>
    ensures { IfOk result (λ password. password ≡ password_word word.now) }
{
    let Some(bytes) = decoded(alloc, word)? else {
        return Ok(None);
    };
    if !is_password(bytes.as_slice()) {
        return Ok(None);
    }
    let mut password = [0; 3];
    password.copy_from_slice(bytes.as_slice());
    Ok(Some(password))
}

/// The bytes that a hexadecimal text spells, where they may come at once.
pub(crate) fn chunk(alloc: Global, text: &str) -> Result<Option<Chunk>, AllocError>
    ensures { IfOk result (λ made. option_map chunk_value made ≡ chunk text.now) }
{
    match decoded(alloc, text)? {
        Some(bytes) if (1..=LONGEST_CHUNK).contains(&bytes.as_slice().len()) => {
            Ok(Some(Chunk::new(alloc, bytes)?))
        }
        _ => Ok(None),
    }
}

/// A message in its frame.
fn framed(alloc: Global, message: &[u8]) -> Result<Bytes, AllocError>
    requires { IsPayloadLength (length message.now) }
    ensures { IfOk result (λ bytes. bytes ≡ frame message.now) }
{
    let length = frame_length(message.len());
    let mut bytes = Vec::with_capacity(alloc, length.len() + message.len())?;
    bytes.extend_from_slice(&length)?;
    bytes.extend_from_slice(message)?;
    Ok(Bytes::new(bytes))
}

/// A text in its frame, where it has a length that may be said.
pub(crate) fn said(alloc: Global, text: &str) -> Result<Option<Chunk>, AllocError>
    ensures { IfOk result (λ made. option_map chunk_value made ≡ said text.now) }
{
    if text.is_empty() || text.len() > SAID_LIMIT {
        return Ok(None);
    }
    let bytes = framed(alloc, text.as_bytes())?;
    Ok(Some(Chunk::new(alloc, bytes)?))
}
