//! The messages of tills as values: headers, requests and faults of nexo Sale to POI 3.0, narrowed to this profile.
#![tactic(auto)]

mod fault;
mod header;
mod laws;
mod money_text;
mod names;
mod outputs;
mod part;
mod request;

pub use fault::SaleFault;
pub use header::Header;
pub use laws::{law_header, law_money, law_texts};
pub use money_text::money;
pub use names::{Class, Kind, Period, law_names};
pub use outputs::{Outputs, Texts};
pub use part::{Part, header_parts, ident_bytes};
pub use request::{Incoming, Output, PaymentAsk, Reference, ReversalAsk, SaleRequest};
