//! What the gateway owes: what a till's bytes are read as, calls by what they mean, what is remembered, and one row for each
//! thing that a round has to handle.
#![tactic(auto)]

ghost use Rattle.gw_owes.specs.Laws.{EachRowEndsInOne, FindsBadLengths, LinksEndInOne, PtBytesGiveItems, ReadsOneWay, TillBytesGiveItems};

mod asker_laws;
mod day_laws;
mod device_laws;
mod display_laws;
mod payment_laws;
mod record_laws;
mod reversal_laws;
mod session_laws;
mod step_laws;
mod terminal;
mod terminal_laws;
mod waiting_laws;

pub use asker_laws::law_askers;
pub use day_laws::{law_day_refusals, law_days};
pub use device_laws::law_device_requests;
pub use display_laws::law_displays;
pub use payment_laws::{law_open_reports, law_payment_begins, law_payment_ends, law_repeats};
pub use record_laws::{law_meanings, law_records};
pub use reversal_laws::{law_aborts, law_refusals, law_reversals};
pub use session_laws::law_sessions;
pub use step_laws::law_on_record;
pub use terminal::{LoggedOut, Service, Standing, Terminal};
pub use terminal_laws::{
    law_awaited, law_dialogues, law_greetings, law_set_aside, law_terminal_alone,
    law_terminal_cuts, law_transcript, law_unlinked, law_way_to_ready,
};
pub use waiting_laws::{law_waiting_causes, law_waits};

/// A till's bytes are read one way.
pub fn law_reads()
    ensures one { ReadsOneWay }
{}

/// What a row owes is calls on the disk and then one other call at most, and so is what a link owes that is made or lost: after a
/// send that fails nothing is left.
pub fn law_rows()
    ensures rows { EachRowEndsInOne }
    ensures links { LinksEndInOne }
{}

/// What a till's newly heard bytes bring is, in order, an item for each message that they newly complete, by the frames of
/// all bytes heard before and of all bytes heard with them, and then one more exactly where no frame can follow.
pub fn law_till_items()
    ensures items { TillBytesGiveItems }
    ensures bad { FindsBadLengths }
{}

/// What a terminal's newly heard bytes bring is, in order, three items for each APDU that they newly complete, by the APDUs
/// of all bytes heard before and of all bytes heard with them, and then one more exactly where the next is above the limit.
pub fn law_pt_items()
    ensures items { PtBytesGiveItems }
{}
