//! TLV objects of the ZVT protocol (PA00P015): read one after another, and written.
//!
//! An object is a tag of one to three bytes, a length of one to three bytes and a value. A [`Tlv`] reads the objects that
//! fill bytes, and reports the offset of the first that is malformed:
//!
//! ```
//! let mut tlv = Tlv::over(b"\x07\x02AB\x25\x80");
//! let object = tlv.next()?; // the tag 07 with the value `AB`
//! let fault = tlv.next(); // no length begins with 80: `TlvFault { at: 4 }`
//! ```
#![tactic(auto)]

mod fault;
mod laws;
mod object;
mod tlv;

pub use fault::TlvFault;
pub use laws::{
    law_decode_object, law_decode_objects, law_no_proper_prefix, law_objects, law_read_again,
};
pub use object::{Object, tlv_length, write_object};
pub use tlv::Tlv;
