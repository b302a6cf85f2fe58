//! The messages of tills (nexo Sale to POI 3.0), read from JSON trees by tables, and requests written.
//!
//! A table has a row for each member of the header or of a category's body: its path, whether it may be absent, and its
//! form. Rows are met in their order, and the first that isn't is the fault. What no row names is ignored.
//!
//! ```
//! let tree = json_text::read(alloc, text)?; // a Payment of 10.99 from the till S1
//! let incoming = sale_msg::read_message(alloc, &tree)?; // `Silent`: a response or a notification, which gets no reply
//! let Incoming::Request(header, SaleRequest::Payment(ask)) = &incoming else { .. };
//! assert_eq!(header.sale.as_bytes(), b"S1");
//! assert_eq!(ask.amount, 1_099);
//! ```
#![tactic(auto)]

mod body;
mod category;
mod check;
mod error;
mod flaw;
mod form;
mod header;
mod laws;
mod members;
mod outputs;
mod path;
mod paths;
mod reader;
mod table;
mod tabled_objects;
mod writer;

pub use category::Category;
pub use error::MessageError;
pub use header::{Headed, read_header};
pub use laws::{law_one_header, law_one_reading, law_written_again};
pub use path::find;
pub use reader::read_message;
pub use sale_values::{
    Class, Header, Incoming, Kind, Output, Outputs, PaymentAsk, Period, Reference, ReversalAsk,
    SaleFault, SaleRequest, Texts,
};
pub use table::Envelope;
pub use writer::write_request;
