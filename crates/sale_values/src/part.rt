//! The parts of which a written message is put together, and those of a header.
//!
//! A message is written into more than one kind of buffer; what is written is here once.
ghost use Rattle.std.specs.Prelude.{◌≡◌};
ghost use Rattle.std.specs.Option.{option_copied};
ghost use Rattle.json_text.specs.Canonical.{canonical};
ghost use Rattle.json_text.specs.Tree.{object};
ghost use Rattle.sale_values.specs.CanonicalHeader.{header_members};
ghost use Rattle.sale_values.specs.PartBytes.{parts_text};

use crate::Header;
use gw_base::Ident;

/// A part of a written message.
#[derive(Clone, Copy)]
pub enum Part<'a> {
    /// Bytes as they are.
    Raw(&'a [u8]),
    /// A text, which is written as a string.
    Text(&'a [u8]),
    /// A text as a string, after the bytes that come before it; nothing where there is no text.
    Optional(&'a [u8], Option<&'a [u8]>),
}

/// The parts of a header: an object of its members in their order, with `ServiceID` and `DeviceID` where it has them.
pub fn header_parts(header: &Header) -> [Part<'_>; 13]
    ensures { parts_text result ≡ canonical (object (header_members header.now)) }
{
    [
        Part::Raw(b"{\"ProtocolVersion\":\"3.0\",\"MessageClass\":"),
        Part::Text(header.class.name().as_bytes()),
        Part::Raw(b",\"MessageCategory\":"),
        Part::Text(header.category.as_bytes()),
        Part::Raw(b",\"MessageType\":"),
        Part::Text(header.kind.name().as_bytes()),
        Part::Optional(b",\"ServiceID\":", ident_bytes(&header.service)),
        Part::Optional(b",\"DeviceID\":", ident_bytes(&header.device)),
        Part::Raw(b",\"SaleID\":"),
        Part::Text(header.sale.as_bytes()),
        Part::Raw(b",\"POIID\":"),
        Part::Text(header.poi.as_bytes()),
        Part::Raw(b"}"),
    ]
}

/// The bytes of an identifier, where there is one.
pub fn ident_bytes<const N: usize>(id: &Option<Ident<N>>) -> Option<&[u8]>
    ensures { option_copied result ≡ id.now }
{
    match id {
        None => None,
        Some(id) => Some(id.as_bytes()),
    }
}
