//! The framing of a till's stream: each message comes after its length in four bytes, most
//! significant first. The reader takes the stream in any chunks and returns each message.
//!
//! nexo Sale to POI leaves framing to the transport, so these frames are this profile's: four bytes of length, 1 to
//! 65,536, and so many bytes of payload. A length of 0 or above 65,536 is a fault, and nothing after it is read.
//!
//! ```
//! let mut reader = FrameReader::new(alloc)?;
//! reader.feed(alloc, b"\0\0\0\x02{}\0\0\0\x03abc\0\0")?;
//! assert_eq!(reader.next()?, Some(b"{}".as_slice()));
//! assert_eq!(reader.next()?, Some(b"abc".as_slice()));
//! assert_eq!(reader.next()?, None);
//! ```
#![tactic(auto)]

mod fault;
mod laws;
mod reader;

pub use fault::FrameFault;
pub use laws::{
    any_chunks, chunk_completes, chunk_more, frame_found, no_frame_begins_another, one_reading,
    reading, refused_for_good,
};
pub use reader::{FrameReader, frame_length, framed_payload};
