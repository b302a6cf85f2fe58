//! The fields of a body, one at a time.
ghost use Rattle.std.specs.Prelude.{◌≡◌, ◌≢◌, ◌↔◌, IsTrue, MatchOption, ℕ, ◌+◌, ◌^◌, ◌<◌, ◌≤◌, List, ◌∷◌, [], length, replicate, slice_index};
ghost use Rattle.std.specs.Int.{to_be_bytes, w32};
ghost use Rattle.gw_base.specs.Bcd.{bcd_of};
ghost use Rattle.gw_base.specs.Currency.{currency_number};
ghost use Rattle.gw_base.specs.Ident.{IsIdent};
ghost use Rattle.gw_base.specs.Moment.{IsMoment};
ghost use Rattle.jrn_record.specs.Limits.{HasOriginal, HasReason, HasTillText, IsPresentWithin};
ghost use Rattle.jrn_record.specs.inner.FieldRead.{IsFieldRead};
ghost use Rattle.jrn_record.specs.Grammar.{approval_code, condition_code, deal_code, how_code, moment_field, option_field, original_code, text_field};
ghost use Rattle.jrn_record.specs.Table.{field, body_field};

use crate::layout::{CHOICE, CURRENCY_SIZE, OUTCOME_CONDITION};
use crate::{Deal, How};
use gw_base::{Condition, Currency, Ident, LAST_MOMENT, bcd_read};
use std::error::Error;
use std::fmt;

/// A field that no record spells.
#[derive(Clone, Copy, PartialEq, Eq, Debug)]
pub struct RecordFault {
    /// The offset of the first such field in the body.
    pub at: usize,
}

impl fmt::Display for RecordFault {
    fn fmt<W: fmt::Write>(&self, f: &mut fmt::Formatter<W>) -> fmt::Result {
        write!(f, "no field of a record at {}", self.at)
    }
}

impl Error for RecordFault {}

/// Whether it is a payment or a reversal.
pub(crate) fn read_deal(body: &[u8; 255]) -> Result<Deal, RecordFault>
    ensures { IsFieldRead result 1 (λ _. Unit {0}) (λ what. deal_code what ∷ []) (body_field body.now (field 1 1)) }
{
    match body[CHOICE] {
        1 => Ok(Deal::Payment),
        2 => Ok(Deal::Reversal),
        _ => Err(RecordFault { at: CHOICE }),
    }
}

/// Whether it is approved.
pub(crate) fn read_approval(body: &[u8; 255]) -> Result<bool, RecordFault>
    ensures { IsFieldRead result 1 (λ _. Unit {0}) (λ approved. approval_code approved ∷ []) (body_field body.now (field 1 1)) }
{
    match body[CHOICE] {
        1 => Ok(true),
        2 => Ok(false),
        _ => Err(RecordFault { at: CHOICE }),
    }
}

/// Whose reconciliation it is.
pub(crate) fn read_how(body: &[u8; 255]) -> Result<How, RecordFault>
    ensures { IsFieldRead result 1 (λ _. Unit {0}) (λ how. how_code how ∷ []) (body_field body.now (field 1 1)) }
{
    match body[CHOICE] {
        1 => Ok(How::Sale),
        2 => Ok(How::Acquirer),
        _ => Err(RecordFault { at: CHOICE }),
    }
}

/// Zeros to the end of the field.
pub(crate) fn read_zeros(body: &[u8; 255], offset: usize, size: usize) -> Result<(), RecordFault>
    requires { offset + size ≤ 255 }
    ensures { IsFieldRead result offset (λ _. Unit {0}) (λ _. replicate size 0) (body_field body.now (field offset size)) }
{
    if are_zeros(bytes_at(body, offset, size)) {
        Ok(())
    } else {
        Err(RecordFault { at: offset })
    }
}

/// A text of 1 to `N` bytes, after its length.
pub(crate) fn read_text<const N: usize>(
    body: &[u8; 255],
    offset: usize,
) -> Result<Ident<N>, RecordFault>
    requires { offset + (N + 1) ≤ 255 }
    ensures { IsFieldRead result offset (IsIdent N) (text_field (N + 1)) (body_field body.now (field offset (N + 1))) }
{
    match text_in(bytes_at(body, offset, N + 1)) {
        Some(bytes) => match Ident::of(bytes) {
            Some(text) => Ok(text),
            None => Err(RecordFault { at: offset }),
        },
        None => Err(RecordFault { at: offset }),
    }
}

/// A text of 1 to `N` bytes of a payment, and none of a reversal.
pub(crate) fn read_option<const N: usize>(
    body: &[u8; 255],
    offset: usize,
    what: Deal,
) -> Result<Option<Ident<N>>, RecordFault>
    requires { offset + (N + 1) ≤ 255 }
    ensures { IsFieldRead result offset (HasTillText what N) (option_field (N + 1)) (body_field body.now (field offset (N + 1))) }
{
    match what {
        Deal::Payment => match read_text(body, offset) {
            Ok(text) => Ok(Some(text)),
            Err(fault) => Err(fault),
        },
        Deal::Reversal => match read_zeros(body, offset, N + 1) {
            Ok(()) => Ok(None),
            Err(fault) => Err(fault),
        },
    }
}

/// A number in so many bytes of two digits: from the least to the greatest where it is present, else 0.
pub(crate) fn read_number(
    body: &[u8; 255],
    offset: usize,
    count: usize,
    present: bool,
    least: u64,
    greatest: u64,
) -> Result<u64, RecordFault>
    requires few { count ≤ 6 }
    requires room { offset + count ≤ 255 }
    requires fits { greatest < 100 ^ count }
    ensures { IsFieldRead result offset (IsPresentWithin present least greatest) (bcd_of count) (body_field body.now (field offset count)) }
{
    let Ok(number) = bcd_read(bytes_at(body, offset, count)) else {
        return Err(RecordFault { at: offset });
    };
    if is_present_within(present, least, greatest, number) {
        Ok(number)
    } else {
        Err(RecordFault { at: offset })
    }
}

/// Whether the number lies between these where it is present, and else is 0.
fn is_present_within(present: bool, least: u64, greatest: u64, number: u64) -> bool
    ensures { IsTrue result ↔ IsPresentWithin present least greatest number }
{
    if present {
        least <= number && number <= greatest
    } else {
        number == 0
    }
}

/// The number of a currency of the table.
pub(crate) fn read_currency(body: &[u8; 255], offset: usize) -> Result<Currency, RecordFault>
    requires { offset + 2 ≤ 255 }
    ensures { IsFieldRead result offset (λ _. Unit {0}) (λ currency. bcd_of 2 (currency_number currency)) (body_field body.now (field offset 2)) }
{
    match bcd_read(bytes_at(body, offset, CURRENCY_SIZE)) {
        Ok(number) => match Currency::from_number(number as u16) {
            Some(currency) => Ok(currency),
            None => Err(RecordFault { at: offset }),
        },
        Err(_) => Err(RecordFault { at: offset }),
    }
}

/// A slot.
pub(crate) fn slot_at(body: &[u8; 255], offset: usize) -> u32
    requires { offset + 4 ≤ 255 }
    ensures value { to_be_bytes w32 result ≡ body_field body.now (field offset 4) }
    ensures fits { result < 2 ^ 32 }
{
    u32::from_be_bytes([
        body[offset],
        body[offset + 1],
        body[offset + 2],
        body[offset + 3],
    ])
}

/// The slot of a reversal's original; a payment has the greatest number.
pub(crate) fn read_original(
    body: &[u8; 255],
    offset: usize,
    what: Deal,
) -> Result<Option<u32>, RecordFault>
    requires { offset + 4 ≤ 255 }
    ensures { IsFieldRead result offset (HasOriginal what) (λ original. to_be_bytes w32 (original_code original))
        (body_field body.now (field offset 4)) }
{
    let slot = slot_at(body, offset);
    match what {
        Deal::Reversal => Ok(Some(slot)),
        Deal::Payment if slot == u32::MAX => Ok(None),
        Deal::Payment => Err(RecordFault { at: offset }),
    }
}

/// The reason of a refusal; an approval has 0.
pub(crate) fn read_condition(
    body: &[u8; 255],
    approved: bool,
) -> Result<Option<Condition>, RecordFault>
    ensures { IsFieldRead result 17 (HasReason approved) (λ condition. condition_code condition ∷ [])
        (body_field body.now (field 17 1)) }
{
    match (approved, body[OUTCOME_CONDITION]) {
        (true, 0) => Ok(None),
        (false, 1) => Ok(Some(Condition::Aborted)),
        (false, 2) => Ok(Some(Condition::Cancel)),
        (false, 3) => Ok(Some(Condition::Refusal)),
        (false, 4) => Ok(Some(Condition::InvalidCard)),
        (false, 5) => Ok(Some(Condition::InsertedCard)),
        (false, 6) => Ok(Some(Condition::UnavailableService)),
        (false, 7) => Ok(Some(Condition::NotAllowed)),
        _ => Err(RecordFault {
            at: OUTCOME_CONDITION,
        }),
    }
}

/// A moment.
pub(crate) fn read_moment(body: &[u8; 255], offset: usize) -> Result<i64, RecordFault>
    requires { offset + 8 ≤ 255 }
    ensures { IsFieldRead result offset IsMoment moment_field (body_field body.now (field offset 8)) }
{
    let seconds = u64::from_be_bytes([
        body[offset],
        body[offset + 1],
        body[offset + 2],
        body[offset + 3],
        body[offset + 4],
        body[offset + 5],
        body[offset + 6],
        body[offset + 7],
    ]);
    if seconds <= LAST_MOMENT as u64 {
        Ok(seconds as i64)
    } else {
        Err(RecordFault { at: offset })
    }
}

/// The bytes of a field.
fn bytes_at(body: &[u8; 255], offset: usize, size: usize) -> &[u8]
    requires { offset + size ≤ 255 }
    ensures value { result.now ≡ body_field body.now (field offset size) }
    ensures len { length result.now ≡ size }
{
    &body[offset..offset + size]
}

/// The text after its length, if zeros fill the rest.
fn text_in(cells: &[u8]) -> Option<&[u8]>
    requires { 0 < length cells.now }
    ensures { MatchOption result ((text : List ℕ) → text_field (length cells.now) text ≢ cells.now)
        (λ text. text_field (length cells.now) text.now ≡ cells.now) }
{
    let (len, rest) = (usize::from(cells[0]), &cells[1..]);
    if len > rest.len() {
        return None;
    }
    let (text, zeros) = rest.split_at(len);
    if are_zeros(zeros) { Some(text) } else { None }
}

/// Whether all bytes are zeros.
fn are_zeros(bytes: &[u8]) -> bool
    ensures { IsTrue result ↔ (bytes.now ≡ replicate (length bytes.now) 0) }
{
    bytes.iter().all(|byte| *byte == 0)
}
