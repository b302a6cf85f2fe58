//! Refunds, reservations and their completions: three commands to a ZVT terminal beside those of [`zvt_msg`] (PA00P015).
//!
//! [`write_more`] writes what is sent to a terminal, and [`read_more`] is the terminal's side of the same.
//!
//! ```
//! let mut out = ArrayVec::new();
//! write_more(&More::Complete { receipt: 17, amount: 500, currency: 978 }, &mut out);
//! // 06 24 0D 87 00 17 04 00 00 00 00 05 00 49 09 78
//! let apdu = Apdu { class: 0x06, instr: 0x22, body: b"\x04\x00\x00\x00\x00\x10\x99\x49\x09\x78" };
//! let more = read_more(&apdu); // `Some(More::Reserve { amount: 1_099, currency: 978 })`
//! ```
#![tactic(auto)]

mod laws;
mod more;
mod reading;
mod writing;

pub use laws::{law_examples, law_more, law_read_again};
pub use more::More;
pub use reading::read_more;
pub use writing::write_more;

// What the calls above name.
pub use zvt_apdu::Apdu;
