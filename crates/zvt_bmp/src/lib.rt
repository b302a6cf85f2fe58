//! The fields of a ZVT status (PA00P015, "bitmaps"): read, and written.
//!
//! A field is a number, a length unless the number fixes it, and a value. [`read_fields`] reads those whose numbers it
//! knows, up to the first other number, and returns the values that a gateway needs, or the first fault:
//!
//! ```
//! let fields = read_fields(b"\x27\x00\x0b\x00\x01\x23")?; // the result 00, and the trace number 123
//! let fault = read_fields(b"\x27\x00\x0b\x00"); // field 0B has three bytes: `FieldFault::Short { at: 2 }`
//! ```
#![tactic(auto)]

mod fields;
mod laws;
mod length_form;
mod writing;

pub use fields::{FieldFault, Fields, read_fields};
pub use laws::{law_decode_status, law_fields_fit, law_read_again};
pub use length_form::digit_of;
pub use writing::write_fields;
