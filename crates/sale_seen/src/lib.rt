//! What a till reads of a reply (nexo Sale to POI 3.0): its category, result, condition, transaction and amount.
//!
//! The members are those of this profile's replies; every other member is ignored. A TransactionStatus is read as the
//! reply that it repeats, but for its own category, result and condition. The laws tie what is read to what
//! `sale_reply` writes, so a till that reads by this crate learns what the gateway sent.
//!
//! ```
//! let tree = json_text::read(alloc, text)?; // a Payment's reply: approved, 10.99
//! let reply = sale_seen::read_reply(&tree)?;
//! assert_eq!(reply.result, ReplyResult::Success);
//! assert_eq!(reply.minor, Some(1_099));
//! ```
#![tactic(auto)]

mod amount_text;
mod digits;
mod laws;
mod paths;
mod reader;
mod reply;
mod reply_members;
mod transaction;

pub use laws::{law_display, law_path, law_reply_read};
pub use reader::read_reply;
pub use reply::ReplySeen;
