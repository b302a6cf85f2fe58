//! Messages of ZVT terminals, and the commands to them (PA00P015).
//!
//! [`read_pt`] reads what a terminal sent, and [`write_command`] writes what is sent to it. [`write_pt`] and
//! [`read_command`] are the terminal's side of the same.
//!
//! ```
//! let apdu = Apdu { class: 0x84, instr: 0x83, body: b"" };
//! let message = read_pt(&apdu)?; // `PtMessage::Nack(0x83)`: the terminal refuses
//! let mut out = ArrayVec::new();
//! write_command(&Command::Authorise { amount: 1_099, currency: 978 }, &mut out);
//! // 06 01 0A 04 00 00 00 00 10 99 49 09 78
//! ```
#![tactic(auto)]

mod block;
mod block_lines;
mod command;
mod command_reading;
mod command_writing;
mod display_reading;
mod fault;
mod laws;
mod message;
mod message_reading;
mod message_writing;

pub use block_lines::Lines437;
pub use command::{Command, Line, Lines};
pub use command_reading::read_command;
pub use command_writing::write_command;
pub use fault::PtFault;
pub use laws::{
    law_commands, law_decode_block_lines, law_decode_pt_message, law_read_again, law_read_fits,
};
pub use message::PtMessage;
pub use message_reading::read_pt;
pub use message_writing::write_pt;

// What the types and calls above name.
pub use zvt_apdu::Apdu;
pub use zvt_bmp::{FieldFault, Fields};
pub use zvt_tlv::TlvFault;
