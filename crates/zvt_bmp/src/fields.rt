//! The values of a status, and their reading.

ghost use Rattle.gw_base.specs.Bcd.{bcd_value, is_bcd};
ghost use Rattle.std.specs.Prelude.{◌≡◌, ◌<◌, ◌≤◌, ◌↔◌, ◌^◌, length, Some, None, MatchResult, IfOk, IfSome, if◌then◌else◌};
ghost use Rattle.std.specs.Bool.{OnTrue, OnFalse};
ghost use Rattle.zvt_bmp.specs.inner.Sizes.{HasFieldSize};
ghost use Rattle.zvt_bmp.specs.declared.fields.Fields.{Fields};
ghost use Rattle.zvt_bmp.specs.declared.fields.FieldFault.{FieldFault};
ghost use Rattle.zvt_bmp.specs.Grammar.{SpellsStatus, IsFirstStatusFault};
ghost use Rattle.zvt_bmp.specs.inner.Results.{ReturnsStatusField};
ghost use Rattle.zvt_bmp.specs.Canonical.{HasFieldDigits};
ghost use Rattle.zvt_bmp.specs.Decode.{may_not_repeat, put_field, no_fields_yet, decode_status_field, decode_status};

use crate::length_form::{LengthFault, LengthForm};
use gw_base::bcd_read;
use std::error::Error;
use std::fmt;

/// The values of a status: each is `None` where its field is absent.
#[derive(Clone, Copy, Debug, PartialEq, Eq)]
pub struct Fields {
    /// The result code, of field `27`.
    pub result: Option<u8>,
    /// The amount in minor units, of field `04`.
    pub amount: Option<u64>,
    /// The trace number, of field `0B`.
    pub trace: Option<u32>,
    /// The receipt number, of field `87`; absent too where it is not in digits.
    pub receipt: Option<u16>,
    /// The currency's two bytes, of the first field `49`.
    pub currency: Option<[u8; 2]>,
    /// The offset of the first number that is not known, or the length of the data.
    pub tail: usize,
}

/// Why data are no fields. An offset is that of the field's number.
#[derive(Clone, Copy, Debug, PartialEq, Eq, Hash)]
pub enum FieldFault {
    /// The data end inside the field.
    Short { at: usize },
    /// A byte of the field's length is of another form.
    BadLength { at: usize },
    /// An amount or a trace number that is not in decimal digits.
    NotDigits { at: usize },
    /// A second result code, amount, trace number or receipt number.
    Twice { number: u8 },
}

impl fmt::Display for FieldFault {
    fn fmt<W: fmt::Write>(&self, f: &mut fmt::Formatter<W>) -> fmt::Result {
        match self {
            FieldFault::Short { at } => write_wrong(f, *at, "is truncated"),
            FieldFault::BadLength { at } => write_wrong(f, *at, "has no well-formed length"),
            FieldFault::NotDigits { at } => write_wrong(f, *at, "is not in digits"),
            FieldFault::Twice { number } => write_second(f, *number),
        }
    }
}

/// Writes what is wrong with the field at an offset.
fn write_wrong<W: fmt::Write>(f: &mut fmt::Formatter<W>, at: usize, wrong: &str) -> fmt::Result {
    write!(f, "the field at {at} {wrong}")
}

/// Writes that a field of this number is there already.
fn write_second<W: fmt::Write>(f: &mut fmt::Formatter<W>, number: u8) -> fmt::Result {
    write!(f, "a second field {number:02X}")
}

impl Error for FieldFault {}

/// What is known of the fields read so far.
#[derive(Clone, Copy, PartialEq, Eq)]
pub(crate) struct FieldsSoFar {
    pub(crate) fields: Fields,
    /// A receipt number was there, in digits or not: one that isn't in digits leaves no value, and still may not come
    /// again.
    pub(crate) receipt: bool,
}

impl FieldsSoFar {
    fn no_fields_yet() -> FieldsSoFar
        ensures { result ≡ no_fields_yet }
    {
        FieldsSoFar {
            fields: Fields {
                result: None,
                amount: None,
                trace: None,
                receipt: None,
                currency: None,
                tail: 0,
            },
            receipt: false,
        }
    }

    /// Whether a field of this number was read that may not come again.
    fn has(&self, number: u8) -> bool
        ensures { result ≡ may_not_repeat self.now number }
    {
        match number {
            0x27 => self.fields.result.is_some(),
            0x04 => self.fields.amount.is_some(),
            0x0B => self.fields.trace.is_some(),
            0x87 => self.receipt,
            _ => false,
        }
    }
}

/// The number that the digits spell, or `None` where a half of a byte is no digit.
fn digits(bytes: &[u8]) -> Option<u64>
    requires { length bytes.now ≤ 6 }
    ensures bound { IfSome result (λ value. value < 100 ^ length bytes.now) }
    ensures value { result ≡ (if is_bcd bytes.now then Some (bcd_value bytes.now) else None) }
{
    bcd_read(bytes).ok()
}

impl FieldsSoFar {
    /// Adds the value of a field; `false` where it should be in digits and is not, and then nothing is added.
    fn put_field(&mut self, number: u8, value: &[u8]) -> bool
        requires { HasFieldSize number value.now }
        ensures some { OnTrue result (put_field self.old number value.now ≡ Some self.new) }
        ensures none { OnFalse result ((put_field self.old number value.now ≡ None) × (self.new ≡ self.old)) }
        ensures digits { HasFieldDigits self.old.fields → HasFieldDigits self.new.fields }
    {
        match number {
            0x27 => self.fields.result = Some(value[0]),
            0x04 => match digits(value) {
                Some(amount) => self.fields.amount = Some(amount),
                None => return false,
            },
            0x0B => match digits(value) {
                Some(trace) => self.fields.trace = Some(trace as u32),
                None => return false,
            },
            0x87 => {
                // A receipt number that is not in digits counts as absent and makes no status faulty, but it may not come again.
                self.receipt = true;
                if let Some(receipt) = digits(value) {
                    self.fields.receipt = Some(receipt as u16);
                }
            }
            0x49 => {
                if self.fields.currency.is_none() {
                    self.fields.currency = Some([value[0], value[1]]);
                }
            }
            _ => {}
        }
        true
    }

    /// Reads the field that the bytes begin with, which are at this offset of the data: what follows it, or `None` where
    /// the tail begins.
    #[tactic(auto, unfolding(crate::specs::Decode::decode_status_field))]
    fn read_field<'a>(
        &mut self,
        offset: usize,
        bytes: &'a [u8],
    ) -> Result<Option<&'a [u8]>, FieldFault>
        ensures field { ReturnsStatusField self.old self.new result (decode_status_field self.old offset bytes.now) }
        ensures shorter { IfOk result (λ found. IfSome found (λ rest. length rest.now < length bytes.now)) }
        ensures digits { HasFieldDigits self.old.fields → HasFieldDigits self.new.fields }
    {
        let [number, bytes @ ..] = bytes else {
            return Ok(None);
        };
        let Some(form) = LengthForm::of(*number) else {
            // The length of a field that isn't known can't be known either, so reading ends here.
            return Ok(None);
        };
        // Looked at before the value is read: a repetition is reported even where the value is faulty too.
        if self.has(*number) {
            return Err(FieldFault::Twice { number: *number });
        }
        match form.value(bytes) {
            Err(LengthFault::Wrong) => Err(FieldFault::BadLength { at: offset }),
            Err(LengthFault::Truncated) => Err(FieldFault::Short { at: offset }),
            Ok((value, rest)) => {
                if !self.put_field(*number, value) {
                    return Err(FieldFault::NotDigits { at: offset });
                }
                Ok(Some(rest))
            }
        }
    }
}

/// Reads the known fields, up to the first number that is not known.
pub fn read_fields(bytes: &[u8]) -> Result<Fields, FieldFault>
    ensures found { (fields : Fields) → (result ≡ Ok fields) ↔ SpellsStatus bytes.now fields }
    ensures fault { (fault : FieldFault) → (result ≡ Err fault) ↔ IsFirstStatusFault bytes.now fault }

    // The result, by the function that computes it.
    ensures computes { result ≡ decode_status bytes.now }

    // Each number has at most as many digits as its field, so what was read can be written again.
    ensures digits { IfOk result HasFieldDigits }
{
    read_all(bytes)
}

/// What [`read_fields`] returns, by the function that computes it. It is apart from it for the prover alone: the relation
/// follows from this.
fn read_all(bytes: &[u8]) -> Result<Fields, FieldFault>
    ensures computes { result ≡ decode_status bytes.now }
    ensures digits { IfOk result HasFieldDigits }
{
    let mut so_far = FieldsSoFar::no_fields_yet();
    let mut rest = bytes;
    while let Some(after) = so_far.read_field(bytes.len() - rest.len(), rest)? {
        rest = after;
    }
    let mut fields = so_far.fields;
    fields.tail = bytes.len() - rest.len();
    Ok(fields)
}
