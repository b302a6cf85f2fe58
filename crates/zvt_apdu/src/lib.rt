//! APDUs of the ZVT protocol (PA00P015) on a TCP stream: read out of chunks of any size, and written.
//!
//! An APDU is a class, an instruction, the length of its data and the data. A length below 255 is one byte; `FF` says that
//! it follows in two bytes, the low one first. The longest data that this profile takes has 12,000 bytes.
//!
//! One [`ApduReader`] serves one connection. Feed it each chunk that arrives, and take APDUs until there is none:
//!
//! ```
//! let mut reader = ApduReader::new(alloc)?;
//! reader.feed(b"\x80\x00\x00\x06\x0f");
//! let apdu = reader.next()?; // 80 00, an acknowledgement, without data
//! let none = reader.next()?; // `06 0F` is less than an APDU
//! reader.feed(b"\x00");
//! let apdu = reader.next()?; // 06 0F, a completion, without data
//! ```
#![tactic(auto)]

mod apdu;
mod fault;
mod header;
mod laws;
mod reader;

pub use apdu::{Apdu, write_apdu};
pub use fault::ApduFault;
pub use laws::{
    law_any_chunks, law_decode_apdu, law_decode_apdus, law_no_proper_prefix, law_read_again,
    law_shorter,
};
pub use reader::ApduReader;
