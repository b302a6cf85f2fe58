//! The values that both wires, the journal and the setup speak of.
#![tactic(auto)]

mod amount;
mod bcd;
mod condition;
mod currency;
mod figures;
mod ident;
mod key;
mod moment;
mod owned;
mod setup;
mod text_437;
mod transaction;

pub use amount::{law_amounts, minor_of};
pub use bcd::{NotDigits, bcd_read, bcd_write, law_bcd};
pub use condition::{Condition, law_conditions};
pub use currency::{Currency, law_currencies};
pub use figures::{Figures, Money};
pub use ident::Ident;
pub use key::{Key, law_keys};
pub use moment::{LAST_MOMENT, law_stamp, stamp, to_moment};
pub use owned::{Bodies, Bytes, Text};
pub use setup::{Pt, Pts, Setup};
pub use text_437::{byte_of_437, char_of_437, law_text_437};
pub use transaction::{law_transaction_examples, law_transaction_texts, transaction_text};
