//! The header of a message.
use crate::{Class, Kind};
use gw_base::Ident;

/// nexo's `MessageHeader`, without its `ProtocolVersion`.
#[derive(Clone, Copy, PartialEq, Eq, Debug)]
pub struct Header {
    pub class: Class,
    /// The `MessageCategory`, ASCII letters alone.
    pub category: Ident<40>,
    pub kind: Kind,
    pub service: Option<Ident<10>>,
    pub device: Option<Ident<10>>,
    pub sale: Ident<40>,
    pub poi: Ident<40>,
}
