//! One dialogue with a card terminal (ZVT PA00P015): a command, what the terminal sends since, and how it ends.
//!
//! A [`Talk`] begins with a command. It takes each message of the terminal, returns what that means, and has the moment
//! until which the terminal may be silent. It sends nothing itself:
//!
//! ```
//! let mut talk = Talk::start(&Command::Authorise { amount: 1_099, currency: 978 }, 0x83, 5, 90, now);
//! let heard = talk.take(&PtMessage::Ack, now); // `Heard::Begun { stop: false }`
//! let heard = talk.take(&PtMessage::Status(fields), now); // `Heard::Seen`
//! let heard = talk.take(&PtMessage::Completion, now); // `Heard::Approved`, by the last status
//! ```
#![tactic(auto)]

mod dialogue_kind;
mod laws;
mod meaning;
mod phase;
mod statuses;
mod table;
mod talk;

pub use laws::{
    law_approved, law_begun, law_deadline, law_declined, law_done, law_ends, law_examples,
    law_figures, law_goes_on, law_no_status, law_read_figures, law_reports, law_stop,
    law_stop_acknowledged, law_stray, law_talk_steps, law_unclear,
};
pub use meaning::Heard;
pub use talk::Talk;
