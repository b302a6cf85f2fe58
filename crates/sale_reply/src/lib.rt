//! The messages to a till (nexo Sale to POI 3.0): replies, device requests and events.
//!
//! A message is written into one buffer, in its frame, and takes no memory. Each part of it has a definition of its
//! tree (`specs/Reply.antt`), and what is written is the canonical spelling of that tree.
//!
//! ```
//! let mut out = Out::new(alloc)?;
//! write_reply(&SaleReply::Plain { header, verdict: Verdict { condition: None, path: None } }, &mut out);
//! let frame = out.as_bytes(); // the length in four bytes, then `{"SaleToPOIResponse":..,"LoginResponse":..}`
//! ```
#![tactic(auto)]

mod body;
mod buffer;
mod device;
mod limits;
mod outputs;
mod plain;
mod reply;
mod text;
mod write;

pub use buffer::Out;
pub use limits::{is_within_limits, law_size, law_text};
pub use outputs::OutputResults;
pub use reply::{Detail, GlobalStatus, PoiMark, ReplyResult, SaleReply, Shown, Told, Verdict};
pub use write::write_reply;
