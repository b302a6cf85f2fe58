//! The reader of the objects of bytes.

ghost use Rattle.std.specs.Prelude.{◌≡◌, ◌↔◌, ℕ, List, [], IsNone, IsOkAnd, IsErrOf};
ghost use Rattle.zvt_tlv.specs.Grammar.{ObjectValue, BeginsWithTlvObject};
ghost use Rattle.zvt_tlv.specs.ObjectsGrammar.{IsMalformedTlvObject};
ghost use Rattle.zvt_tlv.specs.Reader.{ReturnsTlvObject, IsTlvObject, LeavesTlvReader, TlvReaderValue};

use crate::fault::TlvFault;
use crate::object::{Object, first_object};
use std::marker::Model;

/// Reads the objects of bytes one after another.
///
/// Contracts see a reader as the bytes that it has not read yet, and their offset in the whole.
#[derive(Clone, Debug, Drop)]
pub struct Tlv<'a> {
    offset: usize,
    rest: &'a [u8],
}

impl<'a> Model for Tlv<'a> {
    ghost use Rattle.std.specs.Prelude.{◌+◌, ◌^◌, ◌<◌, length};
    ghost use Rattle.zvt_tlv.specs.Reader.{TlvReaderValue};

    ghost Value = { TlvReaderValue };

    ghost view = { λ r. record { offset = r.offset; rest = r.rest.now } };

    ghost invariant = { λ r. r.offset + length r.rest.now < 2 ^ 64 };
}

impl<'a> Tlv<'a> {
    /// A reader of these bytes.
    pub fn over(bytes: &'a [u8]) -> Tlv<'a>
        ensures { result ≡ record { offset = 0; rest = bytes.now } }
    {
        Tlv {
            offset: 0,
            rest: bytes,
        }
    }

    /// The offset, in the whole bytes, of those that are not read yet.
    pub fn offset(&self) -> usize
        ensures { result ≡ self.now.offset }
    {
        self.offset
    }

    /// The next object, or `None` at the end. At a malformed object the reader stays, and returns the same fault again.
    pub fn next(&mut self) -> Result<Option<Object<'a>>, TlvFault>
        ensures whole { (object : ObjectValue)
            → IsTlvObject result object ↔ ((rest : List ℕ) × BeginsWithTlvObject self.old.rest object rest) }
        ensures none { IsOkAnd result IsNone ↔ (self.old.rest ≡ []) }
        ensures fault { (offset : ℕ) → (result ≡ Err (record { at = offset })) ↔ ((offset ≡ self.old.offset) × IsMalformedTlvObject self.old.rest) }

        // The result, by the function that decodes what is left, and what is left then.
        ensures computes { ReturnsTlvObject result self.old }
        ensures leaves { LeavesTlvReader self.old result self.new }
    {
        if self.rest.is_empty() {
            return Ok(None);
        }
        let Some((object, rest)) = first_object(self.rest) else {
            return Err(TlvFault { at: self.offset });
        };
        self.offset += self.rest.len() - rest.len();
        self.rest = rest;
        Ok(Some(object))
    }
}
